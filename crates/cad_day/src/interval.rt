//! Days from one to another.

ghost use Rattle.cad_day.specs.Days.{IsTurned};

use crate::Day;

/// The days from one to another, both within it. An end that is `None` is open.
#[derive(Clone, Copy, Debug, PartialEq, Eq)]
pub struct Interval {
    /// The first day; without one the interval has no start.
    pub from: Option<Day>,
    /// The last day; without one it has no end.
    pub to: Option<Day>,
    /// The first day does not lie after the last.
    pub ghost in_order: { ¬ IsTurned from to },
}
