// Why scatter and gather refuse.
ghost use Rattle.std.specs.Prelude.{◌≡◌};
ghost use Rattle.sections.specs.Refusals.{number};

/// Why nothing was moved.
#[derive(Clone, Copy, PartialEq, Eq, Debug)]
pub enum LayoutRefusal {
    /// There are more or fewer maps than arrays, or one has not its array's length or the grid's board count. Refusal 7.
    MapsDiffer = 7,
    /// A buffer has another length than there are elements. Refusal 8.
    WrongLength = 8,
}

impl LayoutRefusal {
    /// The number by which the refusal is known in a fault.
    pub fn number(self) -> u8
        ensures { result ≡ number self }
    {
        self as u8
    }
}
