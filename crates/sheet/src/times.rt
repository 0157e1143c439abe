// A reader of a sheet, called so many times in a row.
ghost use Rattle.std.specs.Prelude.{◌≡◌, false};
ghost use Rattle.sheet.specs.Answered.{lost};
ghost use Rattle.sheet.specs.Repeated.{Reads, Repeated};

use nest::fault::SheetFault;
use std::alloc::Global;
use tokens::cursor::Cursor;

/// So many values, read one after the other.
pub(crate) fn times<'a, T: Drop, F: Fn(&mut Cursor<'a>) -> Result<T, SheetFault>>(
    heap: Global,
    cursor: &mut Cursor<'a>,
    count: usize,
    one: F,
) -> Result<Vec<T>, SheetFault>
    requires { F.IsAlwaysCallable one }
    ensures { lost result ≡ false → Repeated (Reads F.Fn one) count cursor.old result cursor.new }
{
    let mut values = Vec::new(heap);
    for _ in 0..count {
        values.push(one(cursor)?)?;
    }
    Ok(values)
}
