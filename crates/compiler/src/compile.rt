// The program of a nest.
ghost use Rattle.std.specs.Prelude.{◌≡◌, ◌≤◌, map, IfOk, sum_by, OnOk};
ghost use Rattle.nest.specs.Nests.{shown};
ghost use Rattle.sections.specs.Sections.{dealt};
ghost use Rattle.compiler.specs.Answer.{Answered};
ghost use Rattle.compiler.specs.Compiled.{program_of};
ghost use Rattle.compiler.specs.Laws.{OrdersCoverTheNest};
ghost use Rattle.compiler.specs.Programs.{compiled};

use crate::boards::board_programs;
use crate::letter_totals::letters_of;
use crate::parts::BoardProgram;
use crate::program::Program;
use crate::refusal::CompileRefusal;
use nest::nest::Nest;
use owner_map::OwnerMap;
use sections::Fitted;
use std::alloc::{AllocError, Global};

/// The steps of all boards.
fn all_steps(boards: &[BoardProgram]) -> usize
    requires { sum_by (λ b. b.steps) boards.now ≤ 6969600000 }
    ensures { result ≡ sum_by (λ b. b.steps) boards.now }
{
    boards.iter().map(|board| board.steps).sum()
}

/// The program of a nest whose arrays are dealt out.
fn program_of(heap: Global, fitted: &Fitted) -> Result<Program, AllocError>
    ensures { IfOk result (λ p. compiled p ≡ program_of fitted.now.nest fitted.now.deals) }
{
    let nest = fitted.nest().clone()?;
    let boards = board_programs(heap, fitted)?;
    let totals = letters_of(heap, fitted)?;
    let steps = all_steps(boards.as_slice());
    Ok(Program {
        nest,
        boards,
        letters_between: totals.pairs,
        steps,
        letters: totals.letters,
        depth: totals.depth,
    })
}

/// Compiles a nest whose arrays are dealt out by the maps of their rows and of their columns.
pub fn compile<R: OwnerMap, C: OwnerMap>(
    heap: Global,
    nest: &Nest,
    row_maps: &[R],
    column_maps: &[C],
) -> Result<Program, CompileRefusal>
    ensures answer { Answered (shown nest.now) (dealt (map R.OwnerMap.meaning row_maps.now) (map C.OwnerMap.meaning column_maps.now)) result }
    ensures laws { OnOk result (OrdersCoverTheNest (shown nest.now) (dealt (map R.OwnerMap.meaning row_maps.now) (map C.OwnerMap.meaning column_maps.now))) }
{
    let Ok(fitted) = Fitted::new(nest, row_maps, column_maps) else {
        return Err(CompileRefusal::MapsDiffer);
    };
    Ok(program_of(heap, &fitted)?)
}
