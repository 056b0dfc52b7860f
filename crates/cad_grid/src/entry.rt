//! Positions in cells.

/// A position in one of the cells that its shape touches; ordered by row, column and position.
#[derive(Clone, Copy, Debug, PartialEq, Eq, PartialOrd, Ord)]
pub(crate) struct Entry {
    /// The row of the cell.
    pub row: u32,
    /// The column of the cell.
    pub column: u32,
    /// The position of the feature.
    pub position: u32,
}
