ghost use Rattle.std.specs.Prelude.{◌≡◌};
ghost use Rattle.owner_map.specs.Meaning.{tally, seek};
ghost use Rattle.owner_map.specs.TableDeal.{table_deal};

use super::OwnerTable;
use crate::questions::OwnerMap;
use crate::refusal::Refusal;

// Kept: the two loops; as chains of iterators a count took more than twice the work, and a search five times.
/// How often `board` stands in a row of owners.
fn occurrences(row: &[usize], board: usize) -> usize
    ensures { result ≡ tally board row.now }
{
    let mut seen = 0;
    for owner in row {
        if *owner == board {
            seen += 1;
        }
    }
    seen
}

/// The position, from 1, at which `board` stands in a row of owners after `rank` earlier ones.
fn find(row: &[usize], board: usize, rank: usize) -> Option<usize>
    ensures { result ≡ seek 1 board rank row.now }
{
    let mut seen = 0;
    for (i, owner) in row.iter().enumerate() {
        if *owner == board {
            if seen == rank {
                return Some(i + 1);
            }
            seen += 1;
        }
    }
    None
}

impl OwnerMap for OwnerTable {
    ghost meaning = { table_deal };

    ghost sound = { λ m. m.sound };

    fn boards(&self) -> usize {
        self.numbers.boards
    }

    fn length(&self) -> usize {
        self.numbers.length
    }

    fn place(&self, x: usize) -> Result<(usize, usize), Refusal> {
        let before = self.numbers.before_position(x)?;
        let owner = self.row[before];
        Ok((owner, occurrences(&self.row[..before], owner)))
    }

    fn position(&self, board: usize, rank: usize) -> Result<Option<usize>, Refusal> {
        self.numbers.check_board(board)?;
        Ok(find(&self.row[..self.numbers.length], board, rank))
    }

    fn count_below(&self, board: usize, bound: usize) -> Result<usize, Refusal> {
        self.numbers.check_board(board)?;
        let below = self.numbers.below_bound(bound)?;
        Ok(occurrences(&self.row[..below], board))
    }
}
