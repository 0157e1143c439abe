// Reads a sheet.
ghost use Rattle.std.specs.Prelude.{◌≡◌, ℕ, false, IfOk, IfErr, OnOk};
ghost use Rattle.tokens.specs.Views.{before};
ghost use Rattle.sheet.specs.Answered.{lost, sheet_answer, sheet_verdict};
ghost use Rattle.sheet.specs.Lines.{lines_of, verdict_on};
ghost use Rattle.sheet.specs.SheetLaws.{WholeLines, FirstFault};
ghost use Rattle.nest.specs.Faults.{sheet_told};
ghost use Rattle.nest.specs.Inside.{StaysInside};
ghost use Rattle.nest.specs.Views.{said_all};
ghost use Rattle.sheet.specs.Parted.{parted};
ghost use Rattle.nest.specs.Nests.{shown};

use crate::lines::{array_lines, count_line, grid_line, statements_of};
use nest::fault::SheetFault;
use nest::nest::Nest;
use nest::terms::{Array, Grid, Statement};
use std::alloc::Global;
use tokens::cursor::Cursor;

/// The parts of a nest, not yet known to be one.
#[derive(Drop)]
pub(crate) struct Parts {
    pub(crate) grid: Grid,
    pub(crate) arrays: Vec<Array>,
    pub(crate) sweeps: usize,
    pub(crate) statements: Vec<Statement>,
}

fn parts_of(heap: Global, cursor: &mut Cursor) -> Result<Parts, SheetFault>
    ensures { lost result ≡ false → sheet_answer parted result cursor.new ≡ lines_of (before cursor.old) }
{
    let grid = grid_line(cursor)?;
    let count = count_line(cursor, b"arrays", 1, 4)?;
    let arrays = array_lines(heap, cursor, count)?;
    let sweeps = count_line(cursor, b"sweeps", 0, 1000)?;
    let number = count_line(cursor, b"stmts", 1, 8)?;
    let statements = statements_of(heap, cursor, arrays.as_slice(), number)?;
    cursor.finish()?;
    Ok(Parts {
        grid,
        arrays,
        sweeps,
        statements,
    })
}

/// Reads a sheet: the nest that it describes, or its first fault.
pub fn read_sheet(heap: Global, bytes: &[u8]) -> Result<Nest, SheetFault>
    ensures answer { lost result ≡ false → sheet_verdict shown result ≡ verdict_on bytes.now }
    ensures inside { IfOk result (λ nest. StaysInside (shown nest)) }
    ensures lines { OnOk result ((n : ℕ) × WholeLines n bytes.now) }
    ensures first_fault { lost result ≡ false → IfErr result (λ f. FirstFault bytes.now (sheet_told f).number (sheet_told f).line (sheet_told f).byte) }
{
    let mut cursor = Cursor::new(bytes);
    let Parts {
        grid,
        arrays,
        sweeps,
        statements,
    } = parts_of(heap, &mut cursor)?;
    Ok(Nest {
        grid,
        arrays,
        sweeps,
        statements,
    })
}
