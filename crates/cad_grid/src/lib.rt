//! The register's plane in cells, and a grid index of shapes: the positions of features by the cells that their bounds touch.
//!
//! - [`Cells`]: the cells that a box touches, whether they are more than 64, and whether two boxes touch a common cell
//! - [`bounds_of`]: the bounds of a value, if it is a shape
//! - [`Grid`]: built once over a property; gives the positions near a box, or counts them
//! - [`mark_squares`], [`has_marked_square`]: squares of eight by eight cells, and which of them are marked
//! - [`PositionTest`]: which of the positions near a box are counted
//! - [`laws`]: that cells are squares of 65,536 mm, and that the numbers of columns and rows say which cells a box touches
//!
//! The box from (-1, -1) to (1, 1) touches the four cells around the origin. It shares a cell with the point (65535, 65535)
//! and none with (65536, 0), which lies on the left edge of the next cell.
//!
//! Of the squares from (0, 0) to (65535, 65535) and from (0, 0) to (65536, 65536), at the positions 0 and 1, both are near
//! the point (0, 0), and only position 1 is near (65536, 0).
#![tactic(auto)]

mod cells;
mod entering;
mod entry;
mod finding;
mod grid;
pub mod laws;
mod numbers;
mod passing;
mod position_test;
mod shapes;
mod squares;
mod walking;

pub use cells::Cells;
pub use grid::Grid;
pub use position_test::PositionTest;
pub use shapes::bounds_of;
pub use squares::{SQUARE_WORDS, has_marked_square, mark_squares};
