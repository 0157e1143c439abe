// The tasks of a statement.
ghost use Rattle.std.specs.Prelude.{◌≡◌, IfOk};
ghost use Rattle.nest.specs.Views.{said};
ghost use Rattle.compiler.specs.Orders.{tasks_of};

use crate::order::Task;
use nest::terms::Statement;
use std::alloc::{AllocError, Global};
use std::iter::once;

/// The tasks of a statement in the order in which they are done.
pub(crate) fn tasks_of(heap: Global, statement: &Statement) -> Result<Vec<Task>, AllocError>
    ensures { IfOk result (λ v. v.items ≡ tasks_of (said statement.now)) }
{
    let ships = statement.reads.iter().map(|read| Task::Ship(*read));
    let adds = statement.reads.iter().map(|read| Task::Add(*read));
    ships
        .chain(once(Task::Base))
        .chain(adds)
        .chain(once(Task::Store))
        .collect(heap)
}
