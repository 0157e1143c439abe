// A board's view of a nest.
ghost use Rattle.compiler.specs.Making.{Seated};

use sections::Fitted;

/// A nest whose arrays are dealt out, and one board of its grid.
#[derive(Drop)]
pub(crate) struct BoardView<'a> {
    pub(crate) fitted: &'a Fitted<'a>,
    pub(crate) board: usize,
    ghost seated: { Seated fitted.now board },
}
