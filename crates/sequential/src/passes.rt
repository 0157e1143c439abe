// All iterations of a statement.
ghost use Rattle.std.specs.Prelude.{◌≡◌, length, fold};
ghost use Rattle.nest.specs.Views.{said};
ghost use Rattle.sequential.specs.Iterations.{iterations};
ghost use Rattle.sequential.specs.Run.{Buffers, buffers_of};
ghost use Rattle.sequential.specs.Ready.{Lent, MayStep, StepsBy};

use crate::iteration::Iteration;
use crate::running::Running;
use post::kinds::NumberKind;

impl<'a, T: NumberKind> Running<'a, T> {
    /// Takes a step in every iteration, i slowest. What a step does to the buffers, all do one after the other.
    pub(crate) fn in_each<F: Fn(Iteration, &mut [T], &mut [T])>(
        &self,
        elements: &mut [T],
        held: &mut [T],
        step: F,
    )
        requires lent { Lent self.now.layout.arrays.now (length elements.old) (length held.old) }
        requires may { MayStep self.now.layout.arrays.now (said self.now.statement.now) (F.pre step) }
        ensures { (f : Buffers T → Iteration → Buffers T) → StepsBy self.now.layout.arrays.now (said self.now.statement.now) (F.post step) f → buffers_of elements.new held.new ≡ fold f (buffers_of elements.old held.old) (iterations (said self.now.statement.now).i (said self.now.statement.now).j) }
    {
        for i in self.statement.i.low..self.statement.i.high + 1 {
            for j in self.statement.j.low..self.statement.j.high + 1 {
                step(Iteration { i, j }, elements, held);
            }
        }
    }
}
