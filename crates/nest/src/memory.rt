// Want of memory for a value that found no place.
ghost use Rattle.std.specs.Prelude.{◌≡◌};
ghost use Rattle.nest.specs.declared.fault.SheetFault.TheVariants.{NoMemory};

use crate::fault::SheetFault;
use std::alloc::AllocFailed;

impl<T: Drop> From<AllocFailed<T>> for SheetFault {
    ghost from_gives = { λ _ r. r ≡ NoMemory };

    fn from(_e: AllocFailed<T>) -> SheetFault {
        SheetFault::NoMemory
    }
}
