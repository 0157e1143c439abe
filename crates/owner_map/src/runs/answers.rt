ghost use Rattle.std.specs.Prelude.{◌≡◌, ◌*◌, ◌≤◌};
ghost use Rattle.owner_map.specs.Runs.{runs_deal};
ghost use Rattle.owner_map.specs.BlockCyclicDeals.{sound_runs};

use super::BlockCyclic;
use crate::questions::OwnerMap;
use crate::refusal::Refusal;

impl BlockCyclic {
    /// The number of positions in one round over all boards.
    fn round(&self) -> usize
        ensures product { result ≡ self.now.numbers.boards * self.now.width }
        ensures small { result ≤ 256 }
        ensures some { 1 ≤ result }
    {
        self.width * self.numbers.boards
    }
}

impl OwnerMap for BlockCyclic {
    ghost meaning = { runs_deal };

    ghost sound = { λ m. let within = m.numbers.within in sound_runs m.width m.numbers.boards m.numbers.length m.wide within.0 within.1 within.2 within.3 };

    fn boards(&self) -> usize {
        self.numbers.boards
    }

    fn length(&self) -> usize {
        self.numbers.length
    }

    fn place(&self, x: usize) -> Result<(usize, usize), Refusal> {
        let before = self.numbers.before_position(x)?;
        let owner = before / self.width % self.numbers.boards;
        let rank = before / self.round() * self.width + before % self.width;
        Ok((owner, rank))
    }

    fn position(&self, board: usize, rank: usize) -> Result<Option<usize>, Refusal> {
        self.numbers.check_board(board)?;
        if rank >= self.numbers.length {
            return Ok(None);
        }
        let before = rank / self.width * self.round() + (board * self.width + rank % self.width);
        Ok((before < self.numbers.length).then_some(before + 1))
    }

    fn count_below(&self, board: usize, bound: usize) -> Result<usize, Refusal> {
        self.numbers.check_board(board)?;
        let before = self.numbers.below_bound(bound)?;
        let round = self.round();
        let begun = (before % round).saturating_sub(board * self.width);
        Ok(before / round * self.width + begun.min(self.width))
    }
}
