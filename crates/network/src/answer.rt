//! What a board says to a request.

/// The four answers to a request.
#[derive(Clone, Copy, PartialEq, Eq, Debug)]
pub enum Answer {
    /// The board's next step was run.
    Ran,
    /// The next step must put a letter and its row is full, or must take one and its row is empty: nothing changed.
    Waiting,
    /// The board has no step left: nothing changed.
    Ended,
    /// There is no such board in the network: nothing changed.
    Refused,
}
