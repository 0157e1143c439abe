// The words of a sheet, written.
ghost use Rattle.std.specs.Prelude.{Some};
ghost use Rattle.nest.specs.Words.{map_text, mode_text, variable_text, offset_text};

use crate::terms::{MapWord, Mode, Offset, Variable};
use std::fmt;

impl fmt::Display for MapWord {
    ghost output = { λ word. Some (map_text word) };

    fn fmt<W: fmt::Write>(&self, f: &mut fmt::Formatter<W>) -> fmt::Result {
        match self {
            MapWord::One => write!(f, "one"),
            MapWord::Block => write!(f, "block"),
            MapWord::Cyclic => write!(f, "cyclic"),
            MapWord::CyclicBy(width) => write!(f, "cyclic:{width}"),
        }
    }
}

impl fmt::Display for Mode {
    ghost output = { λ mode. Some (mode_text mode) };

    fn fmt<W: fmt::Write>(&self, f: &mut fmt::Formatter<W>) -> fmt::Result {
        match self {
            Mode::All => write!(f, "all"),
            Mode::Seq => write!(f, "seq"),
        }
    }
}

impl fmt::Display for Variable {
    ghost output = { λ variable. Some (variable_text variable) };

    fn fmt<W: fmt::Write>(&self, f: &mut fmt::Formatter<W>) -> fmt::Result {
        match self {
            Variable::I => write!(f, "i"),
            Variable::J => write!(f, "j"),
        }
    }
}

impl fmt::Display for Offset {
    ghost output = { λ offset. Some (offset_text offset) };

    fn fmt<W: fmt::Write>(&self, f: &mut fmt::Formatter<W>) -> fmt::Result {
        match self {
            Offset::Plus(far) => write!(f, "{far}"),
            Offset::Minus(far) => write!(f, "-{far}"),
        }
    }
}
