// One iteration of a statement.
ghost use Rattle.std.specs.Prelude.{◌≡◌, length};
ghost use Rattle.nest.specs.Views.{said};
ghost use Rattle.sequential.specs.Run.{setting_of, buffers_of, hold, store, hold_and_store};
ghost use Rattle.sequential.specs.Ready.{Within, Lent};

use crate::iteration::Iteration;
use crate::running::Running;
use post::kinds::NumberKind;

impl<'a, T: NumberKind> Running<'a, T> {
    /// Computes the value of an iteration and holds it for the target.
    pub(crate) fn hold(&self, at: Iteration, elements: &[T], held: &mut [T])
        requires lent { Lent self.now.layout.arrays.now (length elements.now) (length held.old) }
        requires within { Within (said self.now.statement.now) at }
        ensures { (d : T) → buffers_of elements.now held.new ≡ hold (setting_of T.NumberKind.sum T.NumberKind.product self.now.coefficients.now self.now.layout.arrays.now d) (said self.now.statement.now) (buffers_of elements.now held.old) at }
    {
        held[self.place(self.statement.put, at)] = self.value(at, elements);
    }

    /// Makes the held value of the target its element.
    pub(crate) fn store(&self, at: Iteration, elements: &mut [T], held: &[T])
        requires lent { Lent self.now.layout.arrays.now (length elements.old) (length held.now) }
        requires within { Within (said self.now.statement.now) at }
        ensures { (d : T) → buffers_of elements.new held.now ≡ store (setting_of T.NumberKind.sum T.NumberKind.product self.now.coefficients.now self.now.layout.arrays.now d) (said self.now.statement.now) (buffers_of elements.old held.now) at }
    {
        let place = self.place(self.statement.put, at);
        elements[place] = held[place];
    }

    /// Does both for an iteration, before the next begins.
    pub(crate) fn hold_and_store(&self, at: Iteration, elements: &mut [T], held: &mut [T])
        requires lent { Lent self.now.layout.arrays.now (length elements.old) (length held.old) }
        requires within { Within (said self.now.statement.now) at }
        ensures { (d : T) → buffers_of elements.new held.new ≡ hold_and_store (setting_of T.NumberKind.sum T.NumberKind.product self.now.coefficients.now self.now.layout.arrays.now d) (said self.now.statement.now) (buffers_of elements.old held.old) at }
    {
        self.hold(at, elements, held);
        self.store(at, elements, held);
    }
}
