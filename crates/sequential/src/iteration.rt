// An iteration of a statement.

/// The values of the two loop variables.
// Kept: no ghost field; anyone may make one, so that it is of a statement (`Within`) is asked of each private step.
#[derive(Clone, Copy, PartialEq, Eq, Debug)]
pub struct Iteration {
    pub i: usize,
    pub j: usize,
}
