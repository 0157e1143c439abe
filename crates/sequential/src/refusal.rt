// Why a run is refused.
ghost use Rattle.std.specs.Prelude.{◌≡◌};
ghost use Rattle.sequential.specs.Refusals.{refusal_number};

/// The one reason for which a run is refused.
#[derive(Clone, Copy, PartialEq, Eq, Debug)]
pub enum RunRefusal {
    /// A buffer has not the length of all arrays together, or there are not eight coefficients.
    WrongLength = 8,
}

impl RunRefusal {
    /// The number of the refusal, as `nest`'s `Told` holds one.
    pub fn number(self) -> usize
        ensures { result ≡ refusal_number self }
    {
        self as usize
    }
}
