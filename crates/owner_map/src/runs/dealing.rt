ghost use Rattle.std.specs.Prelude.{◌≡◌};
ghost use Rattle.owner_map.specs.Answer.{Given};
ghost use Rattle.owner_map.specs.MakeLaws.{MakesAgree};
ghost use Rattle.owner_map.specs.Rules.{Sizes, Makeable, deal_of};
ghost use Rattle.owner_map.specs.Runs.{runs_deal};

use super::BlockCyclic;
use crate::makes::Make;
use crate::numbers::Numbers;
use crate::refusal::Refusal;

/// The map that deals `length` positions over `boards` boards as `make` says.
pub fn deal_out(make: Make, boards: usize, length: usize) -> Result<BlockCyclic, Refusal>
    ensures dealt { Given (Makeable make boards length) (λ m. runs_deal m ≡ deal_of make boards length) result }
    ensures agree { Sizes boards length → MakesAgree boards length }
{
    let width = make.width(boards, length)?;
    let numbers = Numbers { boards, length };
    Ok(BlockCyclic { numbers, width })
}
