//! The values of number kinds as they stand in the table.
use post::kinds::NumberKind;
use std::fmt::Display;
use std::str::FromStr;

/// A number kind whose values can be read and printed.
pub(crate) trait Numeral: NumberKind + Clone + FromStr + Display {
    /// The value that fills a buffer before a post is made from it.
    const FILL: Self;
}

impl Numeral for i32 {
    const FILL: i32 = 77;
}

impl Numeral for f64 {
    const FILL: f64 = 7.5;
}
