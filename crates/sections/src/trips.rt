// Scatter and gather undo each other.
ghost use Rattle.std.specs.Prelude.{◌≡◌, map, length};
ghost use Rattle.nest.specs.Nests.{shown};
ghost use Rattle.sections.specs.Exchange.{SameElements, Answered};
ghost use Rattle.sections.specs.Sections.{dealt};

use super::exchange::{gather, scatter};
use super::refusal::LayoutRefusal;
use nest::nest::Nest;
use owner_map::OwnerMap;

/// Scatters the arrays into the sections and gathers them back: the arrays end as they began.
pub fn scatter_and_gather<T: Copy, R: OwnerMap, C: OwnerMap>(
    nest: &Nest,
    row_maps: &[R],
    column_maps: &[C],
    arrays: &mut [T],
    sections: &mut [T],
) -> Result<(), LayoutRefusal>
    ensures back { arrays.new ≡ arrays.old }
    ensures answer { Answered (shown nest.now) (dealt (map R.OwnerMap.meaning row_maps.now) (map C.OwnerMap.meaning column_maps.now)) (length arrays.old) (length sections.old) (SameElements (shown nest.now) (dealt (map R.OwnerMap.meaning row_maps.now) (map C.OwnerMap.meaning column_maps.now)) arrays.old sections.new) (sections.new ≡ sections.old) result }
{
    scatter(nest, row_maps, column_maps, arrays, sections)?;
    gather(nest, row_maps, column_maps, sections, arrays)
}

/// Gathers the sections into the arrays and scatters them again: the sections end as they began.
pub fn gather_and_scatter<T: Copy, R: OwnerMap, C: OwnerMap>(
    nest: &Nest,
    row_maps: &[R],
    column_maps: &[C],
    sections: &mut [T],
    arrays: &mut [T],
) -> Result<(), LayoutRefusal>
    ensures back { sections.new ≡ sections.old }
    ensures answer { Answered (shown nest.now) (dealt (map R.OwnerMap.meaning row_maps.now) (map C.OwnerMap.meaning column_maps.now)) (length arrays.old) (length sections.old) (SameElements (shown nest.now) (dealt (map R.OwnerMap.meaning row_maps.now) (map C.OwnerMap.meaning column_maps.now)) arrays.new sections.old) (arrays.new ≡ arrays.old) result }
{
    gather(nest, row_maps, column_maps, sections, arrays)?;
    scatter(nest, row_maps, column_maps, arrays, sections)
}
