// What a variable and a subscript stand for at loop values.
ghost use Rattle.std.specs.Prelude.{◌≡◌, ◌+◌, ◌*◌, ◌^◌, ◌<◌, ◌≤◌, MatchOption, Some};
ghost use Rattle.nest.specs.Terms.{pick, position, reach, far};

use crate::terms::{Offset, Subscript, Variable};

impl Variable {
    /// Of what belongs to i and what belongs to j, what belongs to the variable.
    pub fn pick<X: Copy>(self, i: X, j: X) -> X
        ensures { result ≡ pick self i j }
    {
        match self {
            Variable::I => i,
            Variable::J => j,
        }
    }
}

impl Subscript {
    /// The position at a value of the variable, 0 where an offset takes away too much; none where it would be computed
    /// from a number that no `usize` holds.
    pub fn position(self, value: usize) -> Option<usize>
        ensures answer { MatchOption result (2 ^ 64 ≤ reach self value) (λ p. (reach self value < 2 ^ 64) × (p ≡ position self value)) }
        ensures small { self.factor * value + far self.offset < 2 ^ 64 → result ≡ Some (position self value) }
    {
        let multiple = self.factor.checked_mul(value)?;
        match self.offset {
            Offset::Plus(far) => multiple.checked_add(far),
            Offset::Minus(far) => Some(multiple.saturating_sub(far)),
        }
    }
}
