//! The interface of a post.
ghost use Rattle.std.specs.Prelude.{◌≡◌};
ghost use Rattle.post.specs.Mail.{Mail, Orderly, put_answer, after_put, take_answer, after_take, count_answer};
ghost use Rattle.post.specs.Answers.{said_put, said_take, said_count};

use crate::answers::{PostRefusal, Posted};
use crate::kinds::NumberKind;
use crate::pair::Pair;

/// A post: bounded rows of waiting letters, one for each ordered pair of sender and receiver.
pub trait Post {
    /// The number kind of the letters.
    type Letter: NumberKind;

    /// What the post means: its board count, its depth and its rows.
    ghost mail: { Self → Mail Self.Letter };

    /// No row is longer than the depth, and a pair outside the board count has no letters.
    ghost orderly: { (p : Self) → Orderly (mail p) };

    /// The number of boards that the post serves.
    fn boards(&self) -> usize
        ensures { result ≡ (mail self.now).boards };

    /// How many letters of one pair can wait at a time.
    fn depth(&self) -> usize
        ensures { result ≡ (mail self.now).depth };

    /// How many letters wait for a pair.
    fn waiting(&self, pair: Pair) -> Result<usize, PostRefusal>
        ensures { said_count {V = Self.Letter} result ≡ count_answer (mail self.now) pair.from pair.to };

    /// Puts a letter at the end of a pair's row, unless the row is as long as the depth.
    fn put(&mut self, pair: Pair, letter: Self::Letter) -> Result<Posted, PostRefusal>
        ensures answer { said_put {V = Self.Letter} result ≡ put_answer (mail self.old) pair.from pair.to }
        ensures after { mail self.new ≡ after_put (mail self.old) pair.from pair.to letter };

    /// Takes the oldest letter of a pair, if one waits.
    fn take(&mut self, pair: Pair) -> Result<Option<Self::Letter>, PostRefusal>
        ensures answer { said_take result ≡ take_answer (mail self.old) pair.from pair.to }
        ensures after { mail self.new ≡ after_take (mail self.old) pair.from pair.to };
}
