// The steps of a board, from its orders.
ghost use Rattle.std.specs.Prelude.{◌≡◌, ◌<◌, ◌≤◌, length};
ghost use Rattle.compiler.specs.Orders.{board_orders};
ghost use Rattle.compiler.specs.Seats.{board_seen, seat_of, statements_of};
ghost use Rattle.compiler.specs.StepCounts.{Short, cell_count, read_counts, step_count, task_count, width_of};

use crate::order::{Order, Work};
use crate::span::Span;
use crate::view::BoardView;

/// How many numbers a span has.
fn width_of(span: Span) -> usize
    requires { span.end ≤ 33 }
    ensures value { result ≡ width_of span }
    ensures small { result ≤ 33 }
{
    span.end.saturating_sub(span.first)
}

/// How many cells an order has.
fn cell_count(order: Order) -> usize
    requires { (order.i.end ≤ 33) × (order.j.end ≤ 33) }
    ensures value { result ≡ cell_count order }
    ensures small { result ≤ 1089 }
{
    width_of(order.i) * width_of(order.j)
}

impl<'a> BoardView<'a> {
    /// How many tasks of a statement are done in each cell of an order.
    fn task_count(&self, number: usize, work: Work) -> usize
        requires { number < length (statements_of self.now) }
        ensures value { result ≡ task_count (read_counts (statements_of self.now)) number work }
        ensures small { result ≤ 10 }
    {
        match work {
            Work::One(_) => 1,
            Work::Walk => 2 * self.fitted.nest().statements()[number].reads.len() + 2,
        }
    }

    /// The steps of an order: one for each task of each cell.
    fn order_steps(&self, order: Order) -> usize
        requires { Short (length (statements_of self.now)) order }
        ensures value { result ≡ step_count (statements_of self.now) order }
        ensures small { result ≤ 10890 }
    {
        cell_count(order) * self.task_count(order.statement, order.work)
    }

    /// The steps of the board in all sweeps, from its orders.
    pub(crate) fn steps(&self, orders: &[Order]) -> usize
        requires { orders.now ≡ board_orders (seat_of self.now) (statements_of self.now) }
        ensures value { result ≡ (board_seen self.now).steps }
        ensures small { result ≤ 871200000 }
    {
        let mut steps = 0;
        // Kept: tried as a sum over a chain, which asks the bound of each order once more, beside what `order_steps` ensures.
        for order in orders {
            steps += self.order_steps(*order);
        }
        self.fitted.nest().sweeps() * steps
    }
}
