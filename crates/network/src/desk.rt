//! A board and its letter, where every board puts to one board only.
ghost use Rattle.std.specs.Prelude.{◌≡◌, None};
ghost use Rattle.network.specs.Desks.{desk};

/// One board of a network whose rows have depth 1: its own state, and the letter on the way from it.
#[derive(Clone, Copy, PartialEq, Eq, Debug)]
pub struct Desk<S> {
    pub own: S,
    pub letter: Option<u32>,
}

impl<S> Desk<S> {
    /// A board that has put no letter yet.
    pub(crate) fn new(own: S) -> Self
        ensures { result ≡ desk own None }
    {
        Desk { own, letter: None }
    }
}
