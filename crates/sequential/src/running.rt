// A statement as it is run.
ghost use Rattle.std.specs.Prelude.{◌≡◌, true, length};
ghost use Rattle.nest.specs.Sound.{statement_kept};
ghost use Rattle.nest.specs.Views.{said};

use layout::table::Layout;
use nest::terms::Statement;

/// A statement of a nest, with what all its iterations go by.
// Kept: the two lent buffers stay beside it; as fields, the names of their references would stand in every contract.
#[derive(Drop)]
pub(crate) struct Running<'a, T> {
    pub(crate) layout: Layout<'a>,
    pub(crate) coefficients: &'a [T],
    pub(crate) statement: &'a Statement,
    ghost kept: { statement_kept layout.arrays.now (said statement.now) ≡ true },
    ghost eight: { length coefficients.now ≡ 8 },
}
