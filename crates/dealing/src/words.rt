// The maps that a sheet's words stand for.
ghost use Rattle.std.specs.Prelude.{◌≡◌};
ghost use Rattle.owner_map.specs.Answer.{Given};
ghost use Rattle.owner_map.specs.Rules.{Makeable, deal_of};
ghost use Rattle.owner_map.specs.Runs.{runs_deal};
ghost use Rattle.dealing.specs.Words.{make_of};

use nest::terms::MapWord;
use owner_map::{BlockCyclic, Make, Refusal, deal_out};

/// The make that a word of a sheet names.
// Kept: an `impl From<MapWord> for Make` may stand only in the crate of one of the two, and neither knows the other.
pub fn make_of(word: MapWord) -> Make
    ensures { result ≡ make_of word }
{
    match word {
        MapWord::One => Make::One,
        MapWord::Block => Make::Block,
        MapWord::Cyclic => Make::Cyclic,
        MapWord::CyclicBy(k) => Make::CyclicBy(k),
    }
}

/// The map of a word over so many boards and positions; refused by 13 outside its numbers.
pub fn map_of(word: MapWord, boards: usize, length: usize) -> Result<BlockCyclic, Refusal>
    ensures { Given (Makeable (make_of word) boards length) (λ m. runs_deal m ≡ deal_of (make_of word) boards length) result }
{
    deal_out(make_of(word), boards, length)
}
