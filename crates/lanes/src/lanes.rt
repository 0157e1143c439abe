//! Lanes: a post that keeps one ring of letters for every ordered pair, over a lent slice.
ghost use Rattle.std.specs.Prelude.{◌≡◌, ◌+◌, ◌*◌, ◌<◌, ◌≤◌, length};
ghost use Rattle.lanes.specs.Lanes.{Within, Placed, lanes_mail};
ghost use Rattle.post.specs.Made.{board_count, depth_for};
ghost use Rattle.post.specs.Mail.{empty_post};
ghost use Rattle.lanes.specs.Tidy.{lanes_orderly};

use crate::rings::Ring;
use post::answers::{PostRefusal, Posted};
use post::kinds::NumberKind;
use post::pair::Pair;
use post::service::Post;
use post::sizes::{pair_depth, served_boards};

/// A post whose rows are rings of a lent slice, as many places for each pair as the depth.
/// A put, a take and every question take the same time whatever the board count and the depth.
#[derive(Drop)]
pub struct Lanes<'a, T> {
    boards: usize,
    depth: usize,
    /// For each ordered pair, by sender and then receiver, its ring.
    // Kept: no heap; the pair's lane has the same place in `letters`, so that one number finds both.
    rings: [Ring; 64],
    letters: &'a mut [T],
    ghost few: { boards ≤ 8 },
    ghost shallow: { depth ≤ 4096 },
    ghost table: { length rings ≡ 64 },
    ghost within: { Within depth rings },
    ghost room: { boards * boards * depth ≤ length letters.now },
}

impl<'a, T> Lanes<'a, T> {
    /// Lanes over a buffer, in which no letter waits, for 1 to 8 boards: the nearest to the count that is asked for.
    pub fn new(letters: &'a mut [T], boards: usize) -> Lanes<'a, T>
        ensures { lanes_mail result.boards result.depth result.rings result.letters.now ≡ empty_post (board_count boards) (depth_for (length letters.old) (board_count boards)) }
    {
        let depth = pair_depth(letters.len(), boards);
        let boards = served_boards(boards);
        Lanes {
            boards,
            depth,
            rings: [Ring { first: 0, count: 0 }; 64],
            letters,
        }
    }

    /// The place of a pair among those that are served.
    fn place(&self, pair: Pair) -> Result<usize, PostRefusal>
        ensures { Placed self.now.boards pair.from pair.to result }
    {
        pair.served(self.boards)?;
        Ok(pair.from * self.boards + pair.to)
    }

    /// Where the lane of a pair's place begins in the slice of letters.
    fn start(&self, place: usize) -> usize
        requires { place < self.now.boards * self.now.boards }
        ensures value { result ≡ place * self.now.depth }
        ensures within { result + self.now.depth ≤ length self.now.letters.now }
    {
        place * self.depth
    }
}

impl<'a, T: NumberKind> Post for Lanes<'a, T> {
    type Letter = T;

    ghost mail = { λ p. lanes_mail p.boards p.depth p.rings p.letters.now };

    ghost orderly = { λ p. lanes_orderly p.boards p.depth p.rings p.letters.now p.within };

    fn boards(&self) -> usize {
        self.boards
    }

    fn depth(&self) -> usize {
        self.depth
    }

    fn waiting(&self, pair: Pair) -> Result<usize, PostRefusal> {
        Ok(self.rings[self.place(pair)?].count)
    }

    fn put(&mut self, pair: Pair, letter: T) -> Result<Posted, PostRefusal> {
        let place = self.place(pair)?;
        let start = self.start(place);
        let lane = &mut self.letters[start..start + self.depth];
        Ok(self.rings[place].push(lane, letter))
    }

    fn take(&mut self, pair: Pair) -> Result<Option<T>, PostRefusal> {
        let place = self.place(pair)?;
        let start = self.start(place);
        // Lent by `&mut` as in a put: of what is lent by `&` through `self`, a proof keeps the length alone.
        let lane = &mut self.letters[start..start + self.depth];
        Ok(self.rings[place].pop(lane))
    }
}
