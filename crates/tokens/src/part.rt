/// A place in the sheet. Line and byte count from 1.
#[derive(Clone, Copy, PartialEq, Eq, Debug)]
pub struct Place {
    pub line: usize,
    pub byte: usize,
}

/// A part of the sheet, with the place of its first byte.
#[derive(Clone, Copy, PartialEq, Eq, Debug)]
pub struct Part<'a> {
    pub text: &'a [u8],
    pub place: Place,
}

/// One word of a line: its key, or a field that is a number or a word.
#[derive(Clone, Copy, PartialEq, Eq, Debug)]
pub enum Token<'a> {
    Number(Part<'a>),
    Word(Part<'a>),
    Key(Part<'a>),
}
