// Where the elements lie that a statement names in an iteration.
ghost use Rattle.std.specs.Prelude.{◌≡◌, ◌<◌};
ghost use Rattle.layout.specs.Places.{total};
ghost use Rattle.sequential.specs.Iterations.{position_in, place_in};
ghost use Rattle.sequential.specs.Ready.{SmallIn, Reached};

use crate::iteration::Iteration;
use crate::running::Running;
use nest::terms::{Access, Offset, Subscript};

impl Iteration {
    /// The position that a subscript names here.
    fn position(self, subscript: Subscript) -> usize
        requires { SmallIn subscript self }
        ensures { result ≡ position_in subscript self }
    {
        // Kept: `Subscript::position` of `nest` checks each step; with it a run takes half as long again.
        let multiple = subscript.factor * subscript.variable.pick(self.i, self.j);
        match subscript.offset {
            Offset::Plus(far) => multiple + far,
            Offset::Minus(far) => multiple.saturating_sub(far),
        }
    }
}

impl<'a, T> Running<'a, T> {
    /// The place of an element that is there, so that nothing is left of the test for it.
    pub(crate) fn place(&self, access: Access, at: Iteration) -> usize
        requires { Reached self.now.layout.arrays.now access at }
        ensures place { result ≡ place_in self.now.layout.arrays.now access at }
        ensures below { result < total self.now.layout.arrays.now }
    {
        let row = at.position(access.row);
        let column = at.position(access.column);
        self.layout.place(access.array, row, column).unwrap()
    }
}
