// What a `stmt` line says.
ghost use Rattle.sheet.specs.Verdicts.{Short};

use nest::terms::{Mode, Range};

/// What a `stmt` line says, with ranges that are not empty and end at 32 or before.
#[derive(Clone, Copy)]
pub(crate) struct Heading {
    pub(crate) mode: Mode,
    pub(crate) i: Range,
    pub(crate) j: Range,
    ghost short_i: { Short i },
    ghost short_j: { Short j },
}
