// Where elements lie and whose they are, from written answers.
ghost use Rattle.std.specs.Prelude.{◌≡◌, ◌<◌, ◌≤◌, T, map, length, MatchBool, MatchOption};
ghost use Rattle.nest.specs.Nests.{shown};
ghost use Rattle.owner_map.specs.Meaning.{position};
ghost use Rattle.sections.specs.Dealings.{deals_of, Written};
ghost use Rattle.sections.specs.Holdings.{DealtElement, SameShape};
ghost use Rattle.sections.specs.MapTables.{tabled};
ghost use Rattle.sections.specs.Sections.{Fits, dealt, rows_of, columns_of, board_of, section_of};

use super::dealt::Dealt;
use super::fitting::maps_fit;
use super::map_table::MapTable;
use super::places::cell_of;
use super::refusal::LayoutRefusal;
use super::starts::part_starts;
use super::tabling::tables_of;
use nest::nest::Nest;
use nest::terms::Grid;
use owner_map::OwnerMap;

impl Dealt {
    /// How the arrays of a nest are dealt out by these maps, unless the maps differ from the nest.
    pub fn new<R: OwnerMap, C: OwnerMap>(
        nest: &Nest,
        row_maps: &[R],
        column_maps: &[C],
    ) -> Result<Dealt, LayoutRefusal>
        ensures { Written (shown nest.now).grid (shown nest.now).arrays (dealt (map R.OwnerMap.meaning row_maps.now) (map C.OwnerMap.meaning column_maps.now)) result }
    {
        if !maps_fit(nest, row_maps, column_maps) {
            return Err(LayoutRefusal::MapsDiffer);
        }
        let grid = nest.grid();
        let count = row_maps.len();
        let rows = tables_of(row_maps);
        let columns = tables_of(column_maps);
        let starts = part_starts(grid, &rows[..count], &columns[..count]);
        Ok(Dealt {
            grid,
            count,
            rows,
            columns,
            starts,
        })
    }

    /// The boards, by rows and by columns.
    pub fn grid(&self) -> Grid
        ensures { result ≡ self.now.grid }
    {
        self.grid
    }

    // Kept: a function for each dimension, since the name at the call says more than an argument would.
    /// The maps of the rows, in the order of the arrays.
    pub fn row_maps(&self) -> &[MapTable]
        ensures { map tabled result.now ≡ (deals_of self.now).rows }
    {
        &self.rows[..self.count]
    }

    /// The maps of the columns, in the order of the arrays.
    pub fn column_maps(&self) -> &[MapTable]
        ensures { map tabled result.now ≡ (deals_of self.now).columns }
    {
        &self.columns[..self.count]
    }

    /// The map of the rows of an array, or none if there is no such array.
    pub(crate) fn row_map(&self, array: usize) -> Option<&MapTable>
        ensures { MatchOption result (length (deals_of self.now).rows ≤ array) (λ m. (array < length (deals_of self.now).rows) × (tabled m.now ≡ rows_of (deals_of self.now) array)) }
    {
        self.row_maps().get(array)
    }

    /// The map of the columns of an array, or none if there is no such array.
    pub(crate) fn column_map(&self, array: usize) -> Option<&MapTable>
        ensures { MatchOption result (length (deals_of self.now).columns ≤ array) (λ m. (array < length (deals_of self.now).columns) × (tabled m.now ≡ columns_of (deals_of self.now) array)) }
    {
        self.column_maps().get(array)
    }

    /// Whether the arrays are those of a nest, by number, lengths and board counts.
    pub fn fits(&self, nest: &Nest) -> bool
        ensures answer { MatchBool result (Fits (shown nest.now).grid (shown nest.now).arrays (deals_of self.now)) (Fits (shown nest.now).grid (shown nest.now).arrays (deals_of self.now) → ⊥) }
        ensures elements { T result → SameShape (shown nest.now).arrays (deals_of self.now) }
    {
        maps_fit(nest, self.row_maps(), self.column_maps())
    }

    /// The row of an array that a grid row owns at a rank, or none if there is no such array, grid row or rank.
    pub fn row_position(&self, array: usize, grid_row: usize, rank: usize) -> Option<usize>
        ensures { result ≡ position (rows_of (deals_of self.now) array) grid_row rank }
    {
        self.row_map(array)?.position(grid_row, rank).ok()?
    }

    /// The column of an array that a grid column owns at a rank, or none if there is no such array, grid column or rank.
    pub fn column_position(&self, array: usize, grid_column: usize, rank: usize) -> Option<usize>
        ensures { result ≡ position (columns_of (deals_of self.now) array) grid_column rank }
    {
        self.column_map(array)?.position(grid_column, rank).ok()?
    }

    /// The board that owns an element and where the element lies in the section buffer, or none where there is no such
    /// element: array from 0, row and column from 1.
    pub fn place(&self, array: usize, row: usize, column: usize) -> Option<(usize, usize)>
        ensures { MatchOption result (DealtElement (deals_of self.now) array row column → ⊥) (λ p. DealtElement (deals_of self.now) array row column × (p.0 ≡ board_of self.now.grid.rows (deals_of self.now) array row column) × (p.1 ≡ section_of self.now.grid.rows (deals_of self.now) array row column)) }
    {
        let rows = self.row_map(array)?;
        let columns = self.column_map(array)?;
        let (row_owner, row_rank) = rows.place(row).ok()?;
        let (column_owner, column_rank) = columns.place(column).ok()?;
        let board = row_owner + self.grid.rows * column_owner;
        let width = columns.share(column_owner);
        let cell = cell_of(&self.starts, board, array, row_rank, width, column_rank);
        Some((board, cell))
    }
}
