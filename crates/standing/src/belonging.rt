// Whether a place is one of the program's.
ghost use Rattle.std.specs.Prelude.{◌≡◌};
ghost use Rattle.nest.specs.Nests.{shown};
ghost use Rattle.standing.specs.Left.{in_order, in_program, in_span, statement_of};

use crate::course::Course;
use crate::place::Place;
use compiler::order::Order;
use compiler::span::Span;

/// Whether a number is one of a span's.
fn in_span(span: &Span, number: usize) -> bool
    ensures { result ≡ in_span span.now number }
{
    (span.first..span.end).contains(&number)
}

impl Course<'_> {
    /// Whether a place is in an order: its numbers are of the order's spans and its phase goes with the order's work.
    fn is_in_order(&self, order: &Order, at: Place) -> bool
        ensures { result ≡ in_order (statement_of (shown self.now.nest.now) order.now) order.now at }
    {
        in_span(&order.i, at.i)
            && in_span(&order.j, at.j)
            && at.phase.goes_with(&order.work, self.reads_of(order))
    }

    /// Whether a place is one of the program's: its sweep is there, and its order, and it is in that order.
    pub fn contains(&self, at: Place) -> bool
        ensures { result ≡ in_program (shown self.now.nest.now) self.now.orders.now at }
    {
        let Some(order) = self.orders.get(at.order) else {
            return false;
        };
        at.sweep < self.nest.sweeps() && self.is_in_order(order, at)
    }
}
