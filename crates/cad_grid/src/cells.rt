//! Columns and rows of cells.

ghost use Rattle.std.specs.Prelude.{◌≤◌};

/// The columns and rows of cells that a box touches, counted from the plane's lower left corner.
#[derive(Clone, Copy, Debug)]
pub struct Cells {
    /// The first column.
    pub left: u32,
    /// The lowest row.
    pub low: u32,
    /// The last column.
    pub right: u32,
    /// The highest row.
    pub high: u32,
    /// There is a column.
    pub ghost wide: { left ≤ right },
    /// There is a row.
    pub ghost tall: { low ≤ high },
    /// The last column is one of the plane.
    pub ghost within: { right ≤ 3051757 },
    /// The highest row is one of the plane.
    pub ghost below: { high ≤ 3051757 },
}
