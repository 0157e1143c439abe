// What can keep the program from its answer.
ghost use Rattle.std.specs.Prelude.{◌≡◌};
ghost use Rattle.nest.specs.declared.fault.SheetFault.TheVariants.{NoMemory};
ghost use Rattle.facetribbon.specs.declared.fault.Fault.TheVariants.{Sheet, Run, Io};

use nest::fault::SheetFault;
use nest::told::Told;
use sequential::refusal::RunRefusal;
use std::alloc::AllocError;
use std::io;

/// The program's fault. What the reader found stands inside it unchanged.
#[derive(Drop)]
pub(crate) enum Fault {
    Sheet(SheetFault),
    Run(RunRefusal),
    Io(io::Error),
}

impl From<SheetFault> for Fault {
    ghost from_gives = { λ e r. r ≡ Sheet e };

    fn from(e: SheetFault) -> Fault {
        Fault::Sheet(e)
    }
}

impl From<RunRefusal> for Fault {
    ghost from_gives = { λ e r. r ≡ Run e };

    fn from(e: RunRefusal) -> Fault {
        Fault::Run(e)
    }
}

impl From<AllocError> for Fault {
    ghost from_gives = { λ _ r. r ≡ Sheet NoMemory };

    fn from(_e: AllocError) -> Fault {
        Fault::Sheet(SheetFault::NoMemory)
    }
}

impl From<io::Error> for Fault {
    ghost from_gives = { λ e r. r ≡ Io e };

    fn from(e: io::Error) -> Fault {
        Fault::Io(e)
    }
}

impl Fault {
    /// Prints a refusal; hands on what is no refusal.
    pub(crate) fn report(self, rt: &HostRuntime) -> io::Result<()> {
        let told = match self {
            Fault::Sheet(SheetFault::NoMemory) => return Err(io::ErrorKind::OutOfMemory.into()),
            Fault::Sheet(fault) => Told::from(fault),
            Fault::Run(refusal) => Told {
                number: refusal.number(),
                ..Told::default()
            },
            Fault::Io(e) => return Err(e),
        };
        println!(rt; "{told}")
    }
}
