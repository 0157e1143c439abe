ghost use Rattle.std.specs.Prelude.{◌≡◌, if◌then◌else◌, nat_eq};
ghost use Rattle.client_map.specs.Loaded.{loaded_deal};
ghost use Rattle.client_map.specs.FrontDeals.{sound_front};

use super::FrontLoaded;
use owner_map::{OwnerMap, Refusal};

impl FrontLoaded {
    /// How many positions of the front `board` owns.
    fn front_of(&self, board: usize) -> usize
        ensures { result ≡ (if nat_eq board 0 then self.now.front else 0) }
    {
        if board == 0 { self.front } else { 0 }
    }
}

impl OwnerMap for FrontLoaded {
    ghost meaning = { loaded_deal };

    ghost sound = { λ m. let within = m.numbers.within in sound_front m.numbers.boards m.numbers.length m.front within.0 within.1 within.2 within.3 };

    fn boards(&self) -> usize {
        self.numbers.boards
    }

    fn length(&self) -> usize {
        self.numbers.length
    }

    fn place(&self, x: usize) -> Result<(usize, usize), Refusal> {
        let before = self.numbers.before_position(x)?;
        if before < self.front {
            return Ok((0, before));
        }
        let dealt = before - self.front;
        let owner = dealt % self.numbers.boards;
        Ok((owner, self.front_of(owner) + dealt / self.numbers.boards))
    }

    fn position(&self, board: usize, rank: usize) -> Result<Option<usize>, Refusal> {
        self.numbers.check_board(board)?;
        let front = self.front_of(board);
        if rank < front {
            return Ok(Some(rank + 1));
        }
        if rank >= self.numbers.length {
            return Ok(None);
        }
        let before = self.front + (rank - front) * self.numbers.boards + board;
        Ok((before < self.numbers.length).then_some(before + 1))
    }

    fn count_below(&self, board: usize, bound: usize) -> Result<usize, Refusal> {
        self.numbers.check_board(board)?;
        let before = self.numbers.below_bound(bound)?;
        let in_front = before.min(self.front_of(board));
        let dealt = before.saturating_sub(self.front);
        let boards = self.numbers.boards;
        Ok(in_front + (dealt + (boards - 1 - board)) / boards)
    }
}
