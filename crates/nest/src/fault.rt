// What can be wrong with a sheet, layer by layer.
ghost use Rattle.std.specs.Prelude.{◌≡◌};
ghost use Rattle.nest.specs.declared.fault.SheetFault.TheVariants.{Line, Field, Nest, NoMemory};

use std::alloc::AllocError;
use tokens::fault::LineFault;
use tokens::part::Place;

/// A number outside its range. Refusal 2.
#[derive(Clone, Copy, PartialEq, Eq, Debug)]
pub struct FieldFault {
    pub place: Place,
}

/// What keeps lines that are fine on their own from being a nest.
#[derive(Clone, Copy, PartialEq, Eq, Debug)]
pub enum NestFault {
    /// The grid has more than 8 boards. Refusal 3.
    TooManyBoards(Place),
    /// The nest has no array of this number. Refusal 4.
    NoSuchArray(Place),
    /// The lower end of a range is above the higher. Refusal 5.
    EmptyRange(Place),
    /// A subscript leaves its array in some iteration. Refusal 6.
    LeavesArray(Place),
}

/// Why a sheet gives no nest.
#[derive(Clone, Copy, PartialEq, Eq, Debug)]
pub enum SheetFault {
    Line(LineFault),
    Field(FieldFault),
    Nest(NestFault),
    /// There was no memory for the nest. No fault of the sheet, so it has no number.
    NoMemory,
}

impl From<LineFault> for SheetFault {
    ghost from_gives = { λ e r. r ≡ Line e };

    fn from(e: LineFault) -> SheetFault {
        SheetFault::Line(e)
    }
}

impl From<FieldFault> for SheetFault {
    ghost from_gives = { λ e r. r ≡ Field e };

    fn from(e: FieldFault) -> SheetFault {
        SheetFault::Field(e)
    }
}

impl From<NestFault> for SheetFault {
    ghost from_gives = { λ e r. r ≡ Nest e };

    fn from(e: NestFault) -> SheetFault {
        SheetFault::Nest(e)
    }
}

impl From<AllocError> for SheetFault {
    ghost from_gives = { λ _ r. r ≡ NoMemory };

    fn from(_e: AllocError) -> SheetFault {
        SheetFault::NoMemory
    }
}
