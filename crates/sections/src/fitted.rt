// A nest with maps that fit it.
use super::dealt::Dealt;
use super::map_table::MapTable;
use super::refusal::LayoutRefusal;
use nest::nest::Nest;
use owner_map::OwnerMap;
use std::marker::Model;

/// A nest and how its arrays are dealt out, by maps that fit it: one for the rows and one for the columns of each array.
#[derive(Drop)]
pub struct Fitted<'a> {
    pub(crate) nest: &'a Nest,
    pub(crate) dealt: Dealt,
}

impl<'a> Model for Fitted<'a> {
    ghost use Rattle.std.specs.Prelude.{◌≡◌};
    ghost use Rattle.nest.specs.Nests.{shown};
    ghost use Rattle.sections.specs.Dealings.{deals_of};
    ghost use Rattle.sections.specs.DealtNests.{DealtNest, IsFitted};

    ghost Value = { DealtNest };

    ghost view = { λ f. record { nest = shown f.nest.now; deals = deals_of f.dealt } };

    ghost invariant = { λ f. IsFitted (record { nest = shown f.nest.now; deals = deals_of f.dealt }) × (f.dealt.grid ≡ f.nest.now.grid) };
}

impl<'a> Fitted<'a> {
    ghost use Rattle.std.specs.Prelude.{◌≡◌, ◌≤◌, map, length, MatchOption};
    ghost use Rattle.nest.specs.Nests.{shown};
    ghost use Rattle.sections.specs.DealtNests.{Fitting, IsFitted, nest_dealt};
    ghost use Rattle.sections.specs.MapTables.{tabled};
    ghost use Rattle.sections.specs.Sections.{rows_of, columns_of};

    /// The nest, dealt out by these maps, unless they differ from it in number, length or board count.
    pub fn new<R: OwnerMap, C: OwnerMap>(
        nest: &'a Nest,
        row_maps: &[R],
        column_maps: &[C],
    ) -> Result<Self, LayoutRefusal>
        ensures { Fitting (nest_dealt (shown nest.now) (map R.OwnerMap.meaning row_maps.now) (map C.OwnerMap.meaning column_maps.now)) result }
    {
        let dealt = Dealt::new(nest, row_maps, column_maps)?;
        Ok(Fitted { nest, dealt })
    }

    /// The nest.
    // Kept: the invariant as a clause of three calls, since other crates see a model's value and not its invariant.
    pub fn nest(&self) -> &'a Nest
        ensures nest { shown result.now ≡ self.now.nest }
        ensures fitted { IsFitted self.now }
    {
        self.nest
    }

    /// The map of the rows of an array, or none if there is no such array.
    // Kept: a call for each dimension, as `Dealt` has; the name at the call says more than an argument would.
    pub fn row_map(&self, array: usize) -> Option<&MapTable>
        ensures map { MatchOption result (length self.now.nest.arrays ≤ array) (λ m. tabled m.now ≡ rows_of self.now.deals array) }
        ensures fitted { IsFitted self.now }
    {
        self.dealt.row_map(array)
    }

    /// The map of the columns of an array, or none if there is no such array.
    pub fn column_map(&self, array: usize) -> Option<&MapTable>
        ensures map { MatchOption result (length self.now.nest.arrays ≤ array) (λ m. tabled m.now ≡ columns_of self.now.deals array) }
        ensures fitted { IsFitted self.now }
    {
        self.dealt.column_map(array)
    }
}
