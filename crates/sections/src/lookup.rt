// A table of a map's answers is a map.
ghost use Rattle.std.specs.Prelude.{◌≡◌, ◌<◌, ◌≤◌, ◌==◌, length, count_by};
ghost use Rattle.owner_map.specs.Meaning.{share};
ghost use Rattle.sections.specs.MapTables.{tabled};

use super::map_table::MapTable;
use owner_map::{MOST_POSITIONS, Numbers, OwnerMap, Refusal};

/// How often a board stands in a row of owners.
// A sum of bytes, which is compiled without a branch for each owner; a filter and a count are not.
#[tactic(auto, using(crate::proofs::Lookups::seldom))]
fn occurrences(row: &[u8], board: usize) -> usize
    requires { (board < 8) × (length row.now ≤ 32) }
    ensures { result ≡ count_by (λ o. o == board) row.now }
{
    let board = board as u8;
    row.iter().map(|owner| (*owner == board) as u8).sum::<u8>() as usize
}

impl MapTable {
    /// How many positions a board of the map owns.
    pub(crate) fn share(&self, board: usize) -> usize
        requires { board < (tabled self.now).boards }
        ensures { result ≡ share (tabled self.now) board }
    {
        self.shares[board] as usize
    }

    /// The two numbers of the map.
    fn numbers(&self) -> Numbers
        ensures { (result.boards ≡ self.now.boards) × (result.length ≡ self.now.size) }
    {
        Numbers {
            boards: self.boards,
            length: self.size,
        }
    }
}

impl OwnerMap for MapTable {
    ghost meaning = { tabled };

    ghost sound = { λ m. m.sound };

    fn boards(&self) -> usize {
        self.boards
    }

    fn length(&self) -> usize {
        self.size
    }

    fn place(&self, x: usize) -> Result<(usize, usize), Refusal> {
        let before = self.numbers().before_position(x)?;
        Ok((self.owners[before] as usize, self.ranks[before] as usize))
    }

    fn position(&self, board: usize, rank: usize) -> Result<Option<usize>, Refusal> {
        self.numbers().check_board(board)?;
        if rank >= self.share(board) {
            return Ok(None);
        }
        Ok(Some(self.positions[board * MOST_POSITIONS + rank] as usize))
    }

    fn count_below(&self, board: usize, bound: usize) -> Result<usize, Refusal> {
        let numbers = self.numbers();
        numbers.check_board(board)?;
        let below = numbers.below_bound(bound)?;
        Ok(occurrences(&self.owners[..below], board))
    }
}
