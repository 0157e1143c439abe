// Statements in order.
ghost use Rattle.std.specs.Prelude.{◌≡◌, map, length};
ghost use Rattle.nest.specs.Views.{said};
ghost use Rattle.sequential.specs.Run.{setting_of, buffers_of, after_statement, after_sweep};
ghost use Rattle.sequential.specs.Ready.{Lent, AllReady};

use crate::running::Running;
use layout::table::Layout;
use nest::terms::{Mode, Statement};
use post::kinds::NumberKind;

impl<'a, T: NumberKind> Running<'a, T> {
    /// Runs the statement.
    fn run(&self, elements: &mut [T], held: &mut [T])
        requires { Lent self.now.layout.arrays.now (length elements.old) (length held.old) }
        ensures { (d : T) → buffers_of elements.new held.new ≡ after_statement (setting_of T.NumberKind.sum T.NumberKind.product self.now.coefficients.now self.now.layout.arrays.now d) (buffers_of elements.old held.old) (said self.now.statement.now) }
    {
        match self.statement.mode {
            Mode::All => {
                self.in_each(elements, held, |at, elements, held| {
                    self.hold(at, elements, held)
                });
                self.in_each(elements, held, |at, elements, held| {
                    self.store(at, elements, held)
                });
            }
            Mode::Seq => self.in_each(elements, held, |at, elements, held| {
                self.hold_and_store(at, elements, held)
            }),
        }
    }
}

/// Runs all statements once.
pub(crate) fn run_sweep<T: NumberKind>(
    layout: &Layout,
    coefficients: &[T],
    statements: &[Statement],
    elements: &mut [T],
    held: &mut [T],
)
    requires { AllReady layout.now.arrays.now (map said statements.now) (length coefficients.now) (length elements.old) (length held.old) }
    ensures { (d : T) → buffers_of elements.new held.new ≡ after_sweep (setting_of T.NumberKind.sum T.NumberKind.product coefficients.now layout.now.arrays.now d) (map said statements.now) (buffers_of elements.old held.old) }
{
    for statement in statements {
        let running = Running {
            layout: *layout,
            coefficients,
            statement,
        };
        running.run(elements, held);
    }
}
