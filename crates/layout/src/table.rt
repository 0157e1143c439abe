// A table of places.
ghost use Rattle.std.specs.Prelude.{◌≡◌, ℕ, ◌<◌, ◌≤◌, length, slice_index};
ghost use Rattle.layout.specs.Places.{total, start_of, Small};

use nest::terms::Array;

/// Where the elements of a nest's arrays lie in the one buffer: worked out once, asked in constant time.
#[derive(Clone, Copy)]
pub struct Layout<'a> {
    pub(crate) arrays: &'a [Array],
    pub(crate) starts: [usize; 4],
    pub(crate) total: usize,
    ghost few: { length arrays.now ≤ 4 },
    ghost small: { Small arrays.now },
    ghost begun: { (t : ℕ) → t < length arrays.now → slice_index starts t ≡ start_of arrays.now t },
    ghost summed: { total ≡ Rattle.layout.specs.Places.total arrays.now },
}
