//! The index of one property.

use cad_grid::Grid;
use cad_ordered::Ordered;

/// The index of one property, by its kind.
#[derive(Drop)]
pub enum Index {
    /// Flags and spans have none.
    Unindexed,
    /// Of texts, whole numbers and days.
    Ordered(Ordered),
    /// Of spots and areas.
    Grid(Grid),
}
