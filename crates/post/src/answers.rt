//! What the calls of a post answer.

/// What a put did.
#[derive(Clone, Copy, PartialEq, Eq, Debug)]
pub enum Posted {
    /// The letter joined the end of its pair's row.
    Joined,
    /// As many letters as the depth wait for the pair; nothing was done.
    Full,
}

/// Why a post refuses a call.
#[derive(Clone, Copy, PartialEq, Eq, Debug)]
pub enum PostRefusal {
    /// Refusal 14: the sender or the receiver is at or above the board count.
    NoSuchBoard,
}
