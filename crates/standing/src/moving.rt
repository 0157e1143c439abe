// The place after a place.
ghost use Rattle.std.specs.Prelude.{◌≡◌, true, false, ◌∷◌};
ghost use Rattle.nest.specs.Nests.{shown};
ghost use Rattle.compiler.specs.Spans.{Seat};
ghost use Rattle.standing.specs.Left.{deed_at, in_program, todo_from, todo_of};
ghost use Rattle.standing.specs.Moves.{StandsIn};

use crate::course::Course;
use crate::place::Place;

impl Course<'_> {
    /// Where a board stands after the step at a place; at none for a place that is not the program's.
    pub fn after(&self, at: Place) -> Option<Place>
        ensures step { let n = shown self.now.nest.now in let orders = self.now.orders.now in in_program n orders at ≡ true → (b : Seat) → todo_from b n orders at ≡ deed_at b n orders at ∷ todo_of b n orders result }
        ensures outside { in_program (shown self.now.nest.now) self.now.orders.now at ≡ false → result ≡ None }
        ensures there { StandsIn (shown self.now.nest.now) self.now.orders.now result }
    {
        if !self.contains(at) {
            return None;
        }
        let order = &self.orders[at.order];
        let reads = self.reads_of(order);
        if let Some(phase) = at.phase.next(reads) {
            return Some(Place { phase, ..at });
        }
        if let Some(next) = at.next_cell(order, reads) {
            return Some(next);
        }
        self.orders_from(at.sweep, at.order + 1)
    }
}
