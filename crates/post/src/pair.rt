//! Pairs of boards.
ghost use Rattle.std.specs.Prelude.{◌≡◌};
ghost use Rattle.post.specs.Answers.{service};

use crate::answers::PostRefusal;

/// An ordered pair of boards: who sends a letter, and who receives it.
#[derive(Clone, Copy, PartialEq, Eq, Debug)]
pub struct Pair {
    pub from: usize,
    pub to: usize,
}

impl Pair {
    /// Refuses a pair of which a board is at or above the board count, and no other.
    pub fn served(self, boards: usize) -> Result<(), PostRefusal>
        ensures { result ≡ service boards self.from self.to }
    {
        if self.from < boards && self.to < boards {
            Ok(())
        } else {
            Err(PostRefusal::NoSuchBoard)
        }
    }
}
