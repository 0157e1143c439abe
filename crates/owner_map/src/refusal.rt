ghost use Rattle.std.specs.Prelude.{◌≡◌};
ghost use Rattle.owner_map.specs.Answer.{number};

/// Why a map question or the making of a map was refused.
#[derive(Clone, Copy, PartialEq, Eq, Debug)]
pub enum Refusal {
    /// A number of the question or of the making lies outside its range.
    OutsideNumbers = 13,
}

impl Refusal {
    /// The number by which the refusal is known in a fault.
    pub fn number(self) -> u8
        ensures { result ≡ number self }
    {
        self as u8
    }
}
