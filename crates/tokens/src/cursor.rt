// A cursor over a sheet, and the words that it reads.
ghost use Rattle.std.specs.Prelude.{◌+◌, ◌^◌, ◌<◌, ◌≤◌, length};

use crate::part::Place;

/// What is left of a sheet, with the place of its first byte.
#[derive(Clone, Copy)]
pub struct Cursor<'a> {
    pub(crate) rest: &'a [u8],
    pub(crate) place: Place,
    ghost counted: { 1 ≤ place.byte },
    ghost room: { place.line + place.byte + length rest.now < 2 ^ 64 },
}
