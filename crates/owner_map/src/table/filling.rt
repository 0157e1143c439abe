ghost use Rattle.std.specs.Prelude.{◌≡◌};
ghost use Rattle.owner_map.specs.Answer.{Given};
ghost use Rattle.owner_map.specs.Meaning.{Sound};
ghost use Rattle.owner_map.specs.TableDeal.{table_deal};
ghost use Rattle.owner_map.specs.Listed.{listed};

use super::OwnerTable;
use crate::makes::MOST_POSITIONS;
use crate::numbers::Numbers;
use crate::refusal::Refusal;

impl OwnerTable {
    /// The map in which `owners` names the owner of each position, every one of them below `boards`.
    pub fn new(boards: usize, owners: &[usize]) -> Result<OwnerTable, Refusal>
        ensures { Given (Sound (listed boards owners.now)) (λ m. table_deal m ≡ listed boards owners.now) result }
    {
        let numbers = Numbers::new(boards, owners.len())?;
        if owners.iter().any(|owner| *owner >= boards) {
            return Err(Refusal::OutsideNumbers);
        }
        let mut row = [0; MOST_POSITIONS];
        row[..owners.len()].copy_from_slice(owners);
        Ok(OwnerTable { numbers, row })
    }
}
