// The value of a statement in an iteration.
ghost use Rattle.std.specs.Prelude.{◌≡◌, length};
ghost use Rattle.nest.specs.Views.{said};
ghost use Rattle.layout.specs.Places.{total};
ghost use Rattle.sequential.specs.Run.{setting_of, value_in};
ghost use Rattle.sequential.specs.Ready.{Within};

use crate::iteration::Iteration;
use crate::running::Running;
use post::kinds::NumberKind;

impl<'a, T: NumberKind> Running<'a, T> {
    /// The value that the statement computes in an iteration from the elements as they are.
    pub(crate) fn value(&self, at: Iteration, elements: &[T]) -> T
        requires long { length elements.now ≡ total self.now.layout.arrays.now }
        requires within { Within (said self.now.statement.now) at }
        ensures { (d : T) → result ≡ value_in (setting_of T.NumberKind.sum T.NumberKind.product self.now.coefficients.now self.now.layout.arrays.now d) (said self.now.statement.now) elements.now at }
    {
        let coefficients = self.coefficients;
        let mut value = coefficients[self.statement.base];
        let reads = self.statement.reads.as_slice();
        for term in reads {
            let element = elements[self.place(term.source, at)];
            value = value.plus(coefficients[term.coefficient].times(element));
        }
        value
    }
}
