// The program of each board.
ghost use Rattle.std.specs.Prelude.{◌≡◌, ◌≤◌, map, IfOk};
ghost use Rattle.std.specs.List.{range_with_len, AllByRecursion};
ghost use Rattle.compiler.specs.Compiled.{board_of, one_board};
ghost use Rattle.compiler.specs.Seats.{board_seen};
ghost use Rattle.compiler.specs.Totals.{boards_of};

use crate::parts::BoardProgram;
use crate::view::BoardView;
use sections::Fitted;
use std::alloc::{AllocError, Global};

impl<'a> BoardView<'a> {
    /// What the board has to do.
    fn program(&self, heap: Global) -> Result<BoardProgram, AllocError>
        ensures whole { IfOk result (λ b. one_board b ≡ board_seen self.now) }
        ensures small { IfOk result (λ b. b.steps ≤ 871200000) }
    {
        let orders = self.orders(heap)?;
        let steps = self.steps(orders.as_slice());
        Ok(BoardProgram { orders, steps })
    }
}

/// What each board has to do, in the order of their numbers.
pub(crate) fn board_programs(heap: Global, fitted: &Fitted) -> Result<Vec<BoardProgram>, AllocError>
    ensures whole { IfOk result (λ v. map one_board v.items ≡ map (board_of fitted.now.nest fitted.now.deals) (range_with_len 0 (boards_of fitted.now.nest.grid))) }
    ensures small { IfOk result (λ v. AllByRecursion (λ b. b.steps ≤ 871200000) v.items) }
{
    let grid = fitted.nest().grid();
    let mut programs = Vec::new(heap);
    for board in 0..grid.rows * grid.columns {
        let view = BoardView { fitted, board };
        programs.push(view.program(heap)?)?;
    }
    Ok(programs)
}
