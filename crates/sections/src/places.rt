// The element at a place in the arrays, and where it lies in the sections.
ghost use Rattle.std.specs.Prelude.{◌≡◌, ◌+◌, ◌*◌, ◌<◌, ◌≤◌, length, slice_index, MatchOption};
ghost use Rattle.layout.specs.Places.{total, IsElement, place_of};
ghost use Rattle.sections.specs.Beside.{Beside};

use super::fitted::Fitted;
use super::starts::{MOST_ARRAYS, MOST_PARTS};
use nest::terms::Array;

/// The cell of a row rank and a column rank in the part of an array on a board, whose rows have this width.
pub(crate) fn cell_of(
    starts: &[usize; MOST_PARTS],
    board: usize,
    array: usize,
    row_rank: usize,
    width: usize,
    column_rank: usize,
) -> usize
    requires { (board < 8) × (array < 4) × (length starts.now ≡ 32) × (slice_index starts.now (board * 4 + array) + row_rank * width + column_rank < 4096) }
    ensures { result ≡ slice_index starts.now (board * 4 + array) + row_rank * width + column_rank }
{
    starts[board * MOST_ARRAYS + array] + row_rank * width + column_rank
}

/// The array, the row and the column of the element at a place in the arrays, or none past the last.
fn element_at(arrays: &[Array], place: usize) -> Option<(usize, usize, usize)>
    requires { total arrays.now ≤ 4096 }
    ensures { MatchOption result (total arrays.now ≤ place) (λ e. IsElement arrays.now e.0 e.1 e.2 × (place_of arrays.now e.0 e.1 e.2 ≡ place)) }
{
    let mut left = place;
    for (which, array) in arrays.iter().enumerate() {
        let size = array.rows * array.columns;
        if left < size {
            return Some((which, left / array.columns + 1, left % array.columns + 1));
        }
        left -= size;
    }
    None
}

impl<'a> Fitted<'a> {
    /// Where the element at a place in the arrays lies in the sections.
    pub(crate) fn section_at(&self, place: usize) -> usize
        requires { place < total self.now.nest.arrays }
        ensures beside { Beside self.now place result }
        ensures low { result < total self.now.nest.arrays }
    {
        let (array, row, column) = element_at(self.nest.arrays(), place).unwrap();
        self.dealt.place(array, row, column).unwrap().1
    }
}
