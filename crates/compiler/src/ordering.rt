// The orders of a board.
ghost use Rattle.std.specs.Prelude.{◌≡◌, ◌++◌, map, None, IfOk, OnOk};
ghost use Rattle.nest.specs.Views.{said};
ghost use Rattle.compiler.specs.Making.{Orderable, AllOrderable, KeptIn, Spannable};
ghost use Rattle.compiler.specs.Orders.{board_orders, orders_for, task_order, walk_order};
ghost use Rattle.compiler.specs.Seats.{seat_of, statements_of};

use crate::order::{Order, Task, Work};
use crate::owning::{i_owning, j_owning};
use crate::tasks::tasks_of;
use crate::view::BoardView;
use nest::terms::{Mode, Statement};
use std::alloc::{AllocError, Global};

impl<'a> BoardView<'a> {
    /// The order for one task of a statement.
    // Kept: a statement and its number apart, as `enumerate` gives them; a struct of the two would be no plainer.
    fn task_order(&self, number: usize, statement: &Statement, task: Task) -> Order
        requires { Orderable (seat_of self.now) (said statement.now) task }
        ensures { result ≡ task_order (seat_of self.now) number (said statement.now) task }
    {
        Order {
            statement: number,
            work: Work::One(task),
            i: self.span_of(i_owning(statement, task), statement.i),
            j: self.span_of(j_owning(statement, task), statement.j),
        }
    }

    /// The one order of a statement whose tasks are done cell by cell.
    fn walk_order(&self, number: usize, statement: &Statement) -> Order
        requires { Spannable (seat_of self.now) None statement.now.i × Spannable (seat_of self.now) None statement.now.j }
        ensures { result ≡ walk_order (seat_of self.now) number (said statement.now) }
    {
        Order {
            statement: number,
            work: Work::Walk,
            i: self.span_of(None, statement.i),
            j: self.span_of(None, statement.j),
        }
    }

    /// Puts an order for each of some tasks behind the others.
    fn push_task_orders(
        &self,
        number: usize,
        statement: &Statement,
        tasks: &[Task],
        orders: &mut Vec<Order>,
    ) -> Result<(), AllocError>
        requires { AllOrderable (seat_of self.now) (said statement.now) tasks.now }
        ensures { OnOk result (orders.new.items ≡ orders.old.items ++ map (task_order (seat_of self.now) number (said statement.now)) tasks.now) }
    {
        for task in tasks {
            orders.push(self.task_order(number, statement, *task))?;
        }
        Ok(())
    }

    /// Puts the orders of a statement behind the others.
    fn push_orders(
        &self,
        heap: Global,
        number: usize,
        statement: &Statement,
        orders: &mut Vec<Order>,
    ) -> Result<(), AllocError>
        requires { KeptIn self.now.fitted.now.nest (said statement.now) }
        ensures { OnOk result (orders.new.items ≡ orders.old.items ++ orders_for (seat_of self.now) (number, said statement.now)) }
    {
        match statement.mode {
            Mode::All => {
                let tasks = tasks_of(heap, statement)?;
                self.push_task_orders(number, statement, tasks.as_slice(), orders)
            }
            Mode::Seq => {
                orders.push(self.walk_order(number, statement))?;
                Ok(())
            }
        }
    }

    /// The orders of the board for all statements, in succession.
    pub(crate) fn orders(&self, heap: Global) -> Result<Vec<Order>, AllocError>
        ensures { IfOk result (λ v. v.items ≡ board_orders (seat_of self.now) (statements_of self.now)) }
    {
        let mut orders = Vec::new(heap);
        for (number, statement) in self.fitted.nest().statements().iter().enumerate() {
            self.push_orders(heap, number, statement, &mut orders)?;
        }
        Ok(orders)
    }
}
