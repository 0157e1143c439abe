// The fields of a line, read by their kinds.
ghost use Rattle.std.specs.Prelude.{◌≡◌, length, map};
ghost use Rattle.tokens.specs.Texts.{fields_behind};
ghost use Rattle.tokens.specs.Views.{part_of, before, answer};

use tokens::cursor::Cursor;
use tokens::extent::FieldKind;
use tokens::fault::LineFault;
use tokens::part::Token;

/// Reads the fields of a line and its end, from behind its key, which holds the places of the fields till then.
pub(crate) fn read_fields<'a>(
    cursor: &mut Cursor<'a>,
    kinds: &[FieldKind],
    fields: &mut [Token<'a>],
) -> Result<(), LineFault>
    requires { length kinds.now ≡ length fields.old }
    ensures { answer (λ _. map part_of fields.new) result cursor.new ≡ fields_behind 61 kinds.now (before cursor.old) }
{
    let mut lead = b'=';
    // Kept: an index, since after a loop over `fields.iter_mut()` a proof knows no more of the fields than their number.
    for (i, kind) in kinds.iter().enumerate() {
        fields[i] = cursor.field(lead, *kind)?;
        lead = b',';
    }
    cursor.end()
}
