// What is told of a fault: the number of its refusal, and its place.

/// The number of a refusal, and the line and byte of its place. Want of memory has zeros.
#[derive(Clone, Copy, PartialEq, Eq, Debug, Default)]
pub struct Told {
    pub number: usize,
    pub line: usize,
    pub byte: usize,
}
