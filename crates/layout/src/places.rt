// Where the elements of all arrays lie in one buffer.
ghost use Rattle.std.specs.Prelude.{◌≡◌, ◌<◌, ◌≤◌, length, MatchOption};
ghost use Rattle.nest.specs.Nests.{shown};
ghost use Rattle.layout.specs.Places.{Small, total, IsElement, place_of, OnePlaceEach};

use crate::table::Layout;
use nest::nest::Nest;
use nest::terms::Array;

fn layout_of<'a>(arrays: &'a [Array]) -> Layout<'a>
    requires { (length arrays.now ≤ 4) × Small arrays.now }
    ensures { result.arrays.now ≡ arrays.now }
{
    let mut starts = [0; 4];
    let mut total = 0;
    // Kept: after a `zip` with `iter_mut` a proof knows no more of `starts` than its length.
    for (t, array) in arrays.iter().enumerate() {
        starts[t] = total;
        total += array.rows * array.columns;
    }
    Layout {
        arrays,
        starts,
        total,
    }
}

impl<'a> Layout<'a> {
    /// The layout of a nest's arrays.
    pub fn new(nest: &'a Nest) -> Layout<'a>
        ensures { result.arrays.now ≡ (shown nest.now).arrays }
    {
        layout_of(nest.arrays())
    }

    /// How many elements there are. Elements and places below this number match one to one.
    pub fn total(&self) -> usize
        ensures value { result ≡ total self.now.arrays.now }
        ensures matching { OnePlaceEach self.now.arrays.now }
    {
        self.total
    }

    /// Where an element lies, or none where there is no such element: array from 0, row and column from 1.
    pub fn place(&self, array: usize, row: usize, column: usize) -> Option<usize>
        ensures { MatchOption result (IsElement self.now.arrays.now array row column → ⊥) (λ k. IsElement self.now.arrays.now array row column × (k ≡ place_of self.now.arrays.now array row column)) }
    {
        let Array { rows, columns, .. } = *self.arrays.get(array)?;
        if !(1..=rows).contains(&row) || !(1..=columns).contains(&column) {
            return None;
        }
        Some(self.starts[array] + (row - 1) * columns + (column - 1))
    }
}
