// The first place of an order, of a sweep and of all sweeps.
ghost use Rattle.std.specs.Prelude.{◌≡◌, ◌-◌, ◌<◌, length};
ghost use Rattle.std.specs.List.{flat_map};
ghost use Rattle.nest.specs.Nests.{shown};
ghost use Rattle.compiler.specs.Spans.{Seat};
ghost use Rattle.schedule.specs.Events.{again};
ghost use Rattle.standing.specs.Left.{deeds_of, sweeps_left, todo_of};
ghost use Rattle.standing.specs.Moves.{FirstWithCells, Leaves, StandsIn, has_cells, place_in};

use crate::course::Course;
use crate::place::{Phase, Place};
use compiler::order::Order;

/// Whether an order has cells.
fn has_cells(order: &Order) -> bool
    ensures { result ≡ has_cells order.now }
{
    // Kept: no plainer by ranges, whose `is_empty` would be negated twice.
    order.i.first < order.i.end && order.j.first < order.j.end
}

/// The first order with cells from a number on.
fn first_with_cells(orders: &[Order], from: usize) -> Option<usize>
    ensures { FirstWithCells orders.now from result }
{
    (from..orders.len()).find(|k| has_cells(&orders[*k]))
}

impl Course<'_> {
    /// The first place of an order.
    fn place_in(&self, sweep: usize, k: usize) -> Place
        requires { k < length self.now.orders.now }
        ensures { result ≡ place_in (shown self.now.nest.now) self.now.orders.now sweep k }
    {
        let order = &self.orders[k];
        Place {
            sweep,
            order: k,
            i: order.i.first,
            j: order.j.first,
            phase: Phase::first(&order.work, self.reads_of(order)),
        }
    }

    /// Where a board stands at the start of a sweep.
    fn sweep_start(&self, sweep: usize) -> Option<Place>
        ensures todo { let n = shown self.now.nest.now in let orders = self.now.orders.now in Leaves n orders result (λ b. again (n.sweeps - sweep) (flat_map (deeds_of b n) orders)) }
        ensures there { StandsIn (shown self.now.nest.now) self.now.orders.now result }
    {
        if sweep >= self.nest.sweeps() {
            return None;
        }
        let k = first_with_cells(self.orders, 0)?;
        Some(self.place_in(sweep, k))
    }

    /// Where a board stands before an order of a sweep.
    pub(crate) fn orders_from(&self, sweep: usize, from: usize) -> Option<Place>
        requires { sweep < (shown self.now.nest.now).sweeps }
        ensures todo { let n = shown self.now.nest.now in let orders = self.now.orders.now in Leaves n orders result (λ b. sweeps_left b n orders sweep from) }
        ensures there { StandsIn (shown self.now.nest.now) self.now.orders.now result }
    {
        match first_with_cells(self.orders, from) {
            Some(k) => Some(self.place_in(sweep, k)),
            None => self.sweep_start(sweep + 1),
        }
    }

    /// Where a board stands at first: before the first cell of the first order that has one, in sweep 0.
    pub fn first(&self) -> Option<Place>
        ensures todo { let n = shown self.now.nest.now in let orders = self.now.orders.now in (b : Seat) → todo_of b n orders result ≡ again n.sweeps (flat_map (deeds_of b n) orders) }
        ensures there { StandsIn (shown self.now.nest.now) self.now.orders.now result }
    {
        self.sweep_start(0)
    }
}
