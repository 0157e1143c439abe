// The numbers that an order goes through in one loop variable.
use dealing::dimension::Dimension;
use nest::terms::Subscript;

/// A dimension of an array, and the subscript that reaches it.
#[derive(Clone, Copy, PartialEq, Eq, Debug)]
pub struct Owning {
    pub array: usize,
    pub dimension: Dimension,
    pub subscript: Subscript,
}

/// The numbers from `first` up to, and without, `end`: ranks that the board owns in a dimension, or loop values where nothing
/// owns the span.
#[derive(Clone, Copy, PartialEq, Eq, Debug)]
pub struct Span {
    pub owning: Option<Owning>,
    pub first: usize,
    pub end: usize,
}
