ghost use Rattle.std.specs.Prelude.{◌≡◌};
ghost use Rattle.owner_map.specs.Answer.{Given};
ghost use Rattle.client_map.specs.Loaded.{loaded_deal};
ghost use Rattle.client_map.specs.Rule.{Loadable, front_deal};

use super::FrontLoaded;
use owner_map::{Numbers, Refusal};

impl FrontLoaded {
    /// The map of `length` positions over `boards` boards in which board 0 keeps the first `front`.
    pub fn new(boards: usize, length: usize, front: usize) -> Result<FrontLoaded, Refusal>
        ensures { Given (Loadable boards length front) (λ m. loaded_deal m ≡ front_deal boards length front) result }
    {
        let numbers = Numbers::new(boards, length)?;
        if front > length {
            return Err(Refusal::OutsideNumbers);
        }
        Ok(FrontLoaded { numbers, front })
    }
}
