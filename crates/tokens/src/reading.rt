// The words that a cursor reads.
ghost use Rattle.std.specs.Prelude.{◌≡◌, ℕ, ◌≤◌, List, [], ◌∷◌, length, IfOk};
ghost use Rattle.tokens.specs.Extents.{size, extent_of};
ghost use Rattle.tokens.specs.Texts.{taken, then, got, word, field, line_end, nothing_left};
ghost use Rattle.tokens.specs.Values.{key, sort, sort_of};
ghost use Rattle.tokens.specs.Views.{piece, part_of, before, answer};

use crate::cursor::Cursor;
use crate::extent::{FieldKind, Stuck, extent_of, literal_extent};
use crate::fault::LineFault;
use crate::part::{Part, Place, Token};

impl<'a> Cursor<'a> {
    /// A cursor at the beginning of a sheet.
    pub fn new(sheet: &'a [u8]) -> Self
        ensures { before result ≡ record { rest = sheet.now; line = 1; byte = 1 } }
    {
        Self {
            rest: sheet,
            place: Place { line: 1, byte: 1 },
        }
    }

    // Passes over a word of the text that is known to be there, or stops where it is stuck.
    fn pass(&mut self, e: Result<usize, Stuck>) -> Result<Part<'a>, LineFault>
        requires { size e ≤ length self.old.rest.now }
        ensures { answer piece result self.new ≡ taken e (before self.old) }
    {
        let place = self.place;
        match e {
            Ok(n) => {
                let (text, rest) = self.rest.split_at(n);
                self.rest = rest;
                self.place.byte += n;
                Ok(Part { text, place })
            }
            Err(stuck) => Err(LineFault {
                place: Place {
                    line: place.line,
                    byte: place.byte + stuck.after,
                },
            }),
        }
    }

    // Passes over a word that has to stand here.
    #[tactic(auto, using(crate::proofs::Within::literal_within))]
    fn word(&mut self, text: &[u8]) -> Result<Part<'a>, LineFault>
        ensures { answer piece result self.new ≡ word text.now (before self.old) }
    {
        self.pass(literal_extent(text, self.rest))
    }

    /// Reads the key of a line.
    pub fn key(&mut self, text: &[u8]) -> Result<Token<'a>, LineFault>
        ensures value { answer part_of result self.new ≡ word text.now (before self.old) }
        ensures case { IfOk result (λ t. sort t ≡ key) }
    {
        Ok(Token::Key(self.word(text)?))
    }

    /// Reads a field of a kind, behind the byte `lead`.
    #[tactic(auto, using(crate::proofs::Within::extent_within))]
    pub fn field(&mut self, lead: u8, kind: FieldKind) -> Result<Token<'a>, LineFault>
        ensures value { answer part_of result self.new ≡ field lead kind (before self.old) }
        ensures case { IfOk result (λ t. sort t ≡ sort_of kind) }
    {
        self.word(&[lead])?;
        let part = self.pass(extent_of(kind, self.rest))?;
        Ok(match kind {
            FieldKind::Number | FieldKind::Signed => Token::Number(part),
            FieldKind::Mode | FieldKind::Variable | FieldKind::Map => Token::Word(part),
        })
    }

    /// Reads the newline that ends a line.
    #[tactic(auto, using(crate::proofs::Steps::byte_after))]
    pub fn end(&mut self) -> Result<(), LineFault>
        ensures { answer (λ _. tt) result self.new ≡ line_end (before self.old) }
    {
        self.word(b"\n")?;
        self.place.line += 1;
        self.place.byte = 1;
        Ok(())
    }

    /// Refuses whatever is left of the sheet.
    pub fn finish(&mut self) -> Result<(), LineFault>
        ensures { answer (λ _. tt) result self.new ≡ nothing_left self.old.rest.now (before self.old) }
    {
        if self.rest.is_empty() {
            Ok(())
        } else {
            Err(LineFault { place: self.place })
        }
    }
}
