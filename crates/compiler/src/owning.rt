// What owns the spans of a task.
ghost use Rattle.std.specs.Prelude.{◌≡◌};
ghost use Rattle.nest.specs.Views.{said};
ghost use Rattle.compiler.specs.Orders.{i_owning, j_owning};
ghost use Rattle.compiler.specs.Spans.{owning_by, subscript_in, moves_with, ship_owning};

use crate::order::Task;
use crate::span::Owning;
use dealing::dimension::Dimension;
use nest::terms::{Access, Statement, Subscript, Variable};

/// Whether a subscript uses a variable, with a factor of at least 1.
fn moves_with(variable: Variable, subscript: Subscript) -> bool
    ensures { result ≡ moves_with variable subscript }
{
    variable == subscript.variable && subscript.factor >= 1
}

/// The subscript of an access in a dimension.
fn subscript_in(dimension: Dimension, access: Access) -> Subscript
    ensures { result ≡ subscript_in dimension access }
{
    match dimension {
        Dimension::Rows => access.row,
        Dimension::Columns => access.column,
    }
}

/// What owns a span by a dimension of an access.
fn owning_by(dimension: Dimension, access: Access) -> Owning
    ensures { result ≡ owning_by dimension access }
{
    Owning {
        array: access.array,
        dimension,
        subscript: subscript_in(dimension, access),
    }
}

/// What owns the span of a variable for the ship of a read: the rows of the element if they move with the variable, else
/// its columns, else nothing.
fn ship_owning(variable: Variable, source: Access) -> Option<Owning>
    ensures { result ≡ ship_owning variable source }
{
    if moves_with(variable, source.row) {
        Some(owning_by(Dimension::Rows, source))
    } else if moves_with(variable, source.column) {
        Some(owning_by(Dimension::Columns, source))
    } else {
        None
    }
}

/// What owns the i-span of a task.
pub(crate) fn i_owning(statement: &Statement, task: Task) -> Option<Owning>
    ensures { result ≡ i_owning (said statement.now) task }
{
    match task {
        Task::Ship(read) => ship_owning(Variable::I, read.source),
        Task::Base | Task::Add(_) | Task::Store => Some(owning_by(Dimension::Rows, statement.put)),
    }
}

/// What owns the j-span of a task.
pub(crate) fn j_owning(statement: &Statement, task: Task) -> Option<Owning>
    ensures { result ≡ j_owning (said statement.now) task }
{
    match task {
        Task::Ship(read) => ship_owning(Variable::J, read.source),
        Task::Base | Task::Add(_) | Task::Store => Some(owning_by(
            Dimension::Columns,
            statement.put,
        )),
    }
}
