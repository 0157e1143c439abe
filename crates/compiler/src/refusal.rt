// Why a nest is not compiled.
ghost use Rattle.std.specs.Prelude.{◌≡◌};
ghost use Rattle.compiler.specs.Refusals.{refusal_number};
ghost use Rattle.compiler.specs.declared.refusal.CompileRefusal.TheVariants.{NoMemory};

use std::alloc::AllocError;

/// Why there is no program.
#[derive(Clone, Copy, PartialEq, Eq, Debug)]
pub enum CompileRefusal {
    /// There are more or fewer maps than arrays, or one has not its array's length or the grid's board count. Refusal 7.
    MapsDiffer = 7,
    /// There was no memory for the program. The nest is not at fault, so it has no number.
    NoMemory = 0,
}

impl From<AllocError> for CompileRefusal {
    ghost from_gives = { λ _ r. r ≡ NoMemory };

    fn from(_e: AllocError) -> CompileRefusal {
        CompileRefusal::NoMemory
    }
}

impl CompileRefusal {
    /// The number of the refusal; want of memory has 0.
    // Kept: 0 for want of memory, which the clause promises.
    pub fn number(self) -> usize
        ensures { result ≡ refusal_number self }
    {
        self as usize
    }
}
