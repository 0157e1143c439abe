// Where a board stands.
ghost use Rattle.std.specs.Prelude.{◌≡◌, ◌<◌};
ghost use Rattle.standing.specs.Moves.{cell_after, first_phase, goes_with, phase_after};

use compiler::order::{Order, Work};

/// Which step of a cell comes next.
#[derive(Clone, Copy, PartialEq, Eq, Debug)]
pub enum Phase {
    /// The one step of a cell with a single task.
    Single,
    /// In a walk, the ship of a read, by its number.
    Ships(usize),
    /// In a walk, the base.
    Base,
    /// In a walk, the add of a read, by its number.
    Adds(usize),
    /// In a walk, the store.
    Store,
}

impl Phase {
    /// The first step of a cell, for a statement with so many reads.
    pub(crate) fn first(work: &Work, reads: usize) -> Self
        ensures { result ≡ first_phase work.now reads }
    {
        match work {
            Work::One(_) => Self::Single,
            Work::Walk if reads == 0 => Self::Base,
            Work::Walk => Self::Ships(0),
        }
    }

    /// Whether the phase goes with the work of an order.
    pub(crate) fn goes_with(self, work: &Work, reads: usize) -> bool
        ensures { result ≡ goes_with work.now reads self }
    {
        match (work, self) {
            (Work::One(_), Self::Single) | (Work::Walk, Self::Base | Self::Store) => true,
            (Work::Walk, Self::Ships(n) | Self::Adds(n)) => n < reads,
            _ => false,
        }
    }

    /// The phase after this one in a cell, or none after the last.
    pub(crate) fn next(self, reads: usize) -> Option<Self>
        ensures { result ≡ phase_after self reads }
    {
        let last = reads.saturating_sub(1);
        match self {
            Self::Ships(n) if n < last => Some(Self::Ships(n + 1)),
            Self::Ships(_) => Some(Self::Base),
            Self::Base if reads != 0 => Some(Self::Adds(0)),
            Self::Adds(n) if n < last => Some(Self::Adds(n + 1)),
            Self::Base | Self::Adds(_) => Some(Self::Store),
            Self::Single | Self::Store => None,
        }
    }
}

/// A place in the orders of a board, before a step.
#[derive(Clone, Copy, PartialEq, Eq, Debug)]
pub struct Place {
    pub sweep: usize,
    /// The order, counted from 0 through all orders of the board.
    pub order: usize,
    /// A number of the order's i-span.
    pub i: usize,
    /// A number of its j-span.
    pub j: usize,
    pub phase: Phase,
}

impl Place {
    /// The first step of the next cell of an order: of the row, else of the next row.
    pub(crate) fn next_cell(self, order: &Order, reads: usize) -> Option<Self>
        requires { (self.i < order.now.i.end) × (self.j < order.now.j.end) }
        ensures { result ≡ cell_after order.now reads self }
    {
        let phase = Phase::first(&order.work, reads);
        let i_end = order.i.end;
        let j_end = order.j.end;
        if self.j + 1 < j_end {
            Some(Self {
                j: self.j + 1,
                phase,
                ..self
            })
        } else if self.i + 1 < i_end {
            Some(Self {
                i: self.i + 1,
                j: order.j.first,
                phase,
                ..self
            })
        } else {
            None
        }
    }
}
