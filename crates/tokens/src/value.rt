// What the text of a token says.
ghost use Rattle.std.specs.Prelude.{◌≡◌, ◌≤◌};
ghost use Rattle.tokens.specs.Values.{magnitude, written, begins_with};
ghost use Rattle.tokens.specs.Views.{piece, part_of};

use crate::part::{Part, Token};

/// A number that no field can write.
const CAP: usize = 10_000;

fn with_digit(value: usize, b: u8) -> usize
    requires { value ≤ 10000 }
    ensures { result ≡ written value b }
{
    if b.is_ascii_digit() {
        CAP.min(10 * value + usize::from(b - b'0'))
    } else {
        value
    }
}

#[tactic(auto, using(crate::proofs::Numbers::written_capped, crate::proofs::Numbers::magnitude_more, crate::proofs::Numbers::magnitude_all))]
fn written_number(text: &[u8]) -> usize
    ensures { result ≡ magnitude text.now }
{
    let mut value = 0;
    for &b in text {
        value = with_digit(value, b);
    }
    value
}

impl<'a> Token<'a> {
    /// The part of the sheet that the token is.
    pub fn part(self) -> Part<'a>
        ensures { piece result ≡ part_of self.entry }
    {
        match self {
            Token::Number(part) | Token::Word(part) | Token::Key(part) => part,
        }
    }

    /// The number that the digits of the text write, its sign aside.
    pub fn magnitude(self) -> usize
        ensures { result ≡ magnitude (part_of self.entry).text }
    {
        written_number(self.part().text)
    }

    /// Whether the text begins with a byte.
    pub fn begins_with(self, b: u8) -> bool
        ensures { result ≡ begins_with b (part_of self.entry).text }
    {
        matches!(self.part().text, [first, ..] if *first == b)
    }
}
