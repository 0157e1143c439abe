// Scatter and gather: all elements moved between the arrays and the boards' sections.
ghost use Rattle.std.specs.Prelude.{◌≡◌, map, length, OnOk};
ghost use Rattle.nest.specs.Nests.{shown};
ghost use Rattle.sections.specs.DealtNests.{nest_dealt};
ghost use Rattle.sections.specs.Exchange.{SameElements, Answered, Prepared, ArraysBack, SectionsBack};
ghost use Rattle.sections.specs.Order.{PlaceIsIndex};
ghost use Rattle.sections.specs.SectionLaws.{OneSectionEach};
ghost use Rattle.sections.specs.Sections.{dealt};

use super::fitted::Fitted;
use super::fitting::maps_fit;
use super::refusal::LayoutRefusal;
use layout::table::Layout;
use nest::nest::Nest;
use owner_map::OwnerMap;

/// The nest with these maps, unless they or the length of a buffer differ from it.
fn prepared<'a, R: OwnerMap, C: OwnerMap>(
    nest: &'a Nest,
    row_maps: &[R],
    column_maps: &[C],
    arrays: usize,
    sections: usize,
) -> Result<Fitted<'a>, LayoutRefusal>
    ensures { Prepared (nest_dealt (shown nest.now) (map R.OwnerMap.meaning row_maps.now) (map C.OwnerMap.meaning column_maps.now)) arrays sections result }
{
    // The lengths before the tables, so that a refusal asks no map for a position.
    if !maps_fit(nest, row_maps, column_maps) {
        return Err(LayoutRefusal::MapsDiffer);
    }
    let total = Layout::new(nest).total();
    if arrays != total || sections != total {
        return Err(LayoutRefusal::WrongLength);
    }
    let fitted = Fitted::new(nest, row_maps, column_maps)?;
    Ok(fitted)
}

/// Moves every element of the arrays to its place in the sections.
// Kept: nest and maps apart in public calls, whose callers have them so; behind the call they are one `Fitted`.
pub fn scatter<T: Copy, R: OwnerMap, C: OwnerMap>(
    nest: &Nest,
    row_maps: &[R],
    column_maps: &[C],
    arrays: &[T],
    sections: &mut [T],
) -> Result<(), LayoutRefusal>
    ensures answer { Answered (shown nest.now) (dealt (map R.OwnerMap.meaning row_maps.now) (map C.OwnerMap.meaning column_maps.now)) (length arrays.now) (length sections.old) (SameElements (shown nest.now) (dealt (map R.OwnerMap.meaning row_maps.now) (map C.OwnerMap.meaning column_maps.now)) arrays.now sections.new) (sections.new ≡ sections.old) result }
    ensures matching { OnOk result (OneSectionEach (shown nest.now).grid.rows (shown nest.now).arrays (dealt (map R.OwnerMap.meaning row_maps.now) (map C.OwnerMap.meaning column_maps.now))) }
    ensures order { OnOk result (PlaceIsIndex (shown nest.now).grid (shown nest.now).arrays (dealt (map R.OwnerMap.meaning row_maps.now) (map C.OwnerMap.meaning column_maps.now))) }
    ensures undone { OnOk result (ArraysBack (shown nest.now) (dealt (map R.OwnerMap.meaning row_maps.now) (map C.OwnerMap.meaning column_maps.now)) arrays.now sections.new) }
{
    let fitted = prepared(nest, row_maps, column_maps, arrays.len(), sections.len())?;
    for (place, value) in arrays.iter().enumerate() {
        sections[fitted.section_at(place)] = *value;
    }
    Ok(())
}

/// Moves every element of the sections back to its place in the arrays.
pub fn gather<T: Copy, R: OwnerMap, C: OwnerMap>(
    nest: &Nest,
    row_maps: &[R],
    column_maps: &[C],
    sections: &[T],
    arrays: &mut [T],
) -> Result<(), LayoutRefusal>
    ensures answer { Answered (shown nest.now) (dealt (map R.OwnerMap.meaning row_maps.now) (map C.OwnerMap.meaning column_maps.now)) (length arrays.old) (length sections.now) (SameElements (shown nest.now) (dealt (map R.OwnerMap.meaning row_maps.now) (map C.OwnerMap.meaning column_maps.now)) arrays.new sections.now) (arrays.new ≡ arrays.old) result }
    ensures undone { OnOk result (SectionsBack (shown nest.now) (dealt (map R.OwnerMap.meaning row_maps.now) (map C.OwnerMap.meaning column_maps.now)) arrays.new sections.now) }
{
    let fitted = prepared(nest, row_maps, column_maps, arrays.len(), sections.len())?;
    for (place, value) in arrays.iter_mut().enumerate() {
        *value = sections[fitted.section_at(place)];
    }
    Ok(())
}
