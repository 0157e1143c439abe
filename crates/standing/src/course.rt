// What a board goes through.
ghost use Rattle.std.specs.Prelude.{◌≡◌};
ghost use Rattle.nest.specs.Nests.{shown};
ghost use Rattle.standing.specs.Moves.{reads_of};

use compiler::order::Order;
use nest::nest::Nest;

/// A nest, and the orders of a board for it, in which the board goes through each sweep.
// Kept: that a place is one of the course's is a clause (`StandsIn`); a place is public, and names no course.
#[derive(Clone, Copy)]
pub struct Course<'a> {
    pub nest: &'a Nest,
    pub orders: &'a [Order],
}

impl Course<'_> {
    /// How many reads the statement of an order has.
    pub(crate) fn reads_of(&self, order: &Order) -> usize
        ensures { result ≡ reads_of (shown self.now.nest.now) order.now }
    {
        self.nest
            .statements()
            .get(order.statement)
            .map_or(0, |statement| statement.reads.len())
    }
}
