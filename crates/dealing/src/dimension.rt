/// The two dimensions of an array.
#[derive(Clone, Copy, PartialEq, Eq, Debug)]
pub enum Dimension {
    /// Dealt over the rows of the grid.
    Rows,
    /// Dealt over the columns of the grid.
    Columns,
}
