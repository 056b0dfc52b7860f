//! Plans.

use cad_feature::Range;
use cad_shape::Bounds;

/// Which features are looked at: the plan's candidates.
#[derive(Drop)]
pub enum Plan {
    /// All of them.
    All,
    /// None of them.
    Empty,
    /// Those that have a value inside the range.
    Range(Range),
    /// Those whose shape of the property is near the box, in millimetres: its bounds touch more than 64 cells, or a cell that
    /// the box touches.
    Near { property: usize, bounds: Bounds },
    /// The candidates of all of these; without plans, all features.
    Meet(Vec<Plan>),
    /// The candidates of any of these; without plans, none.
    Join(Vec<Plan>),
}
