// What is told of a fault, and how it is written.
ghost use Rattle.std.specs.Prelude.{◌≡◌, Some};
ghost use Rattle.nest.specs.Faults.{told, nest_told, sheet_told, fault_line};

use crate::fault::{NestFault, SheetFault};
use crate::told::Told;
use std::fmt;
use tokens::part::Place;

fn told_at(number: usize, place: Place) -> Told
    ensures { result ≡ told number place }
{
    let Place { line, byte } = place;
    Told { number, line, byte }
}

/// The number of the refusal, and its place.
impl From<NestFault> for Told {
    ghost from_gives = { λ e r. r ≡ nest_told e };

    fn from(fault: NestFault) -> Told {
        match fault {
            NestFault::TooManyBoards(place) => told_at(3, place),
            NestFault::NoSuchArray(place) => told_at(4, place),
            NestFault::EmptyRange(place) => told_at(5, place),
            NestFault::LeavesArray(place) => told_at(6, place),
        }
    }
}

/// The number of the refusal, and its place; zeros for want of memory.
impl From<SheetFault> for Told {
    ghost from_gives = { λ e r. r ≡ sheet_told e };

    fn from(fault: SheetFault) -> Told {
        match fault {
            SheetFault::Line(fault) => told_at(1, fault.place),
            SheetFault::Field(fault) => told_at(2, fault.place),
            SheetFault::Nest(fault) => fault.into(),
            SheetFault::NoMemory => Told::default(),
        }
    }
}

/// As the program prints a refusal.
impl fmt::Display for Told {
    ghost output = { λ told. Some (fault_line told) };

    fn fmt<W: fmt::Write>(&self, f: &mut fmt::Formatter<W>) -> fmt::Result {
        let Told { number, line, byte } = *self;
        write!(f, "fault={number},{line},{byte}")
    }
}
