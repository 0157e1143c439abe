// The board that owns the element of an access, in each iteration of a statement.
ghost use Rattle.std.specs.Prelude.{◌≡◌, ◌≤◌};
ghost use Rattle.nest.specs.Views.{said};
ghost use Rattle.owner_map.specs.Meaning.{Position, owner};
ghost use Rattle.compiler.specs.OwnerTables.{Stays, Along, HasOwner, owner_by, board_by, Answers, Reaches, Tells};

use nest::terms::{Access, Range, Statement, Subscript, Variable};
use owner_map::OwnerMap;
use sections::Fitted;
use sequential::iteration::Iteration;

/// Room for every loop value, which is at most 32.
pub(crate) const LOOP_VALUES: usize = 33;

/// The owners of the positions that a subscript names in one dimension, by the values of its variable.
#[derive(Clone, Copy)]
pub(crate) struct OwnersAlong {
    pub(crate) owners: [usize; LOOP_VALUES],
    pub(crate) variable: Variable,
}

/// The owners of an access along its row and its column, each asked of the maps once.
#[derive(Clone, Copy)]
pub(crate) struct Owners {
    pub(crate) rows: OwnersAlong,
    pub(crate) columns: OwnersAlong,
    pub(crate) grid_rows: usize,
}

/// The owner of a position of the map.
fn owner_of<M: OwnerMap>(map: &M, position: usize) -> usize
    requires { Position (M.OwnerMap.meaning map.now) position }
    ensures { result ≡ owner (M.OwnerMap.meaning map.now) position }
{
    map.place(position).unwrap().0
}

impl OwnersAlong {
    /// The owners of the positions that a subscript names at the values of a range.
    fn new<M: OwnerMap>(map: &M, subscript: Subscript, range: Range) -> Self
        requires { Stays (M.OwnerMap.meaning map.now) subscript range }
        ensures { Along (M.OwnerMap.meaning map.now) subscript range result }
    {
        let mut owners = [0; LOOP_VALUES];
        // Kept: the table goes by loop values, which need not begin at its first place.
        for value in range.low..range.high + 1 {
            owners[value] = owner_of(map, subscript.position(value).unwrap());
        }
        OwnersAlong {
            owners,
            variable: subscript.variable,
        }
    }

    /// The owner in an iteration.
    fn owner(&self, at: Iteration) -> usize
        requires { HasOwner self.now at }
        ensures { result ≡ owner_by self.now at }
    {
        self.owners[self.variable.pick(at.i, at.j)]
    }
}

impl Owners {
    /// The board that owns the element in an iteration.
    pub(crate) fn board(&self, at: Iteration) -> usize
        requires { Answers self.now at }
        ensures { result ≡ board_by self.now at }
    {
        self.rows.owner(at) + self.grid_rows * self.columns.owner(at)
    }
}

/// The owners of an access in the iterations of a statement.
pub(crate) fn owners_of(fitted: &Fitted, statement: &Statement, access: Access) -> Owners
    requires some { ((said statement.now).i.low ≤ (said statement.now).i.high) × ((said statement.now).j.low ≤ (said statement.now).j.high) }
    requires reaches { Reaches fitted.now.nest.arrays (said statement.now) access }
    ensures { Tells fitted.now.nest.grid.rows fitted.now.deals (said statement.now) access result }
{
    let row_map = fitted.row_map(access.array).unwrap();
    let column_map = fitted.column_map(access.array).unwrap();
    let row_range = access.row.variable.pick(statement.i, statement.j);
    let column_range = access.column.variable.pick(statement.i, statement.j);
    Owners {
        rows: OwnersAlong::new(row_map, access.row, row_range),
        columns: OwnersAlong::new(column_map, access.column, column_range),
        grid_rows: fitted.nest().grid().rows,
    }
}
