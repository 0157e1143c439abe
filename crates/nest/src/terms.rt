// The parts of a nest, as a sheet writes them.

/// The boards, by rows and by columns.
#[derive(Clone, Copy, PartialEq, Eq, Debug)]
pub struct Grid {
    pub rows: usize,
    pub columns: usize,
}

/// How a dimension of an array is dealt out, by the word for it.
#[derive(Clone, Copy, PartialEq, Eq, Debug)]
pub enum MapWord {
    One,
    Block,
    Cyclic,
    CyclicBy(usize),
}

/// An array: its sizes, the map of its rows over the grid's rows, the map of its columns over the grid's columns.
#[derive(Clone, Copy, PartialEq, Eq, Debug)]
pub struct Array {
    pub rows: usize,
    pub columns: usize,
    pub row_map: MapWord,
    pub column_map: MapWord,
}

/// When the values of a statement are stored: all of them after the last is computed, or each at once.
#[derive(Clone, Copy, PartialEq, Eq, Debug)]
pub enum Mode {
    All,
    Seq,
}

/// The values of a loop variable, both ends included.
#[derive(Clone, Copy, PartialEq, Eq, Debug)]
pub struct Range {
    pub low: usize,
    pub high: usize,
}

/// The two loop variables.
#[derive(Clone, Copy, PartialEq, Eq, Debug)]
pub enum Variable {
    I,
    J,
}

/// What a subscript adds to a multiple of its variable.
// Kept: positions are natural numbers; with a signed number every contract above would speak of two kinds of number.
#[derive(Clone, Copy, PartialEq, Eq, Debug)]
pub enum Offset {
    Plus(usize),
    Minus(usize),
}

/// The position factor × variable + offset.
#[derive(Clone, Copy, PartialEq, Eq, Debug)]
pub struct Subscript {
    pub variable: Variable,
    pub factor: usize,
    pub offset: Offset,
}

/// An element of an array in each iteration. Arrays are numbered from 0 here, in the order of the sheet.
#[derive(Clone, Copy, PartialEq, Eq, Debug)]
pub struct Access {
    pub array: usize,
    pub row: Subscript,
    pub column: Subscript,
}

/// A term of a statement's value: a coefficient, by its number, times an element.
#[derive(Clone, Copy, PartialEq, Eq, Debug)]
pub struct ReadTerm {
    pub coefficient: usize,
    pub source: Access,
}

/// A statement: for each i and j of its ranges the element `put` becomes the base coefficient plus the terms.
#[derive(Clone, PartialEq, Eq, Debug, Drop)]
pub struct Statement {
    pub mode: Mode,
    pub i: Range,
    pub j: Range,
    pub put: Access,
    pub base: usize,
    pub reads: Vec<ReadTerm>,
}
