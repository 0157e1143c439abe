ghost use Rattle.std.specs.Prelude.{◌≡◌, Some, Ok};
ghost use Rattle.owner_map.specs.Worked.{WorkedMaps};

use crate::makes::Make;
use crate::questions::OwnerMap;
use crate::refusal::Refusal;
use crate::runs::dealing::deal_out;

/// The last position of board 0 when seven positions are dealt to two boards in runs of two.
pub fn last_of_seven_in_twos() -> Result<Option<usize>, Refusal>
    ensures answer { result ≡ Ok (Some 6) }
    ensures cases { WorkedMaps }
{
    let map = deal_out(Make::CyclicBy(2), 2, 7)?;
    map.position(0, 3)
}
