//! What holds of cells. Each contract is a law; the functions do nothing.

ghost use Rattle.cad_grid.specs.Laws.{CellsAreSquares, BlocksAreTouched, SharedCellsAreTouched, BlocksAreOfCorners};

/// A column holds 65,536 mm from its left edge on, which begins at the origin in column 0, and a row likewise.
pub fn cells_are_squares()
    ensures { CellsAreSquares }
{}

/// The cells of a block are those with which the box shares a point.
pub fn blocks_are_touched()
    ensures { BlocksAreTouched }
{}

/// The test says that two boxes share a cell exactly if both share a point with one cell.
pub fn shared_cells_are_touched()
    ensures { SharedCellsAreTouched }
{}

/// The block of a shape's corners is that of its bounds.
pub fn blocks_are_of_corners()
    ensures { BlocksAreOfCorners }
{}
