//! Days of the calendar, and intervals of days.
//!
//! - `Day`: a day of the years 0000 to 9999, read from and written as `YYYY-MM-DD`.
//! - `Interval`: the days from one to another, where either end may be open.
//! - `Relation`: how two intervals lie to one another; [`holds`] says whether it holds of two.
//! - [`asked`]: the days that a text asks for. `2010-01-01/..` asks for those from 2010-01-01 on, without a last day.
//! - `laws`: what holds of days and their texts, beyond what each call says.
#![tactic(auto)]

mod day;
mod end;
mod fault;
mod interval;
pub mod laws;
mod making;
mod moment;
mod relation;
mod text;

pub use day::Day;
pub use fault::DatetimeFault;
pub use interval::Interval;
pub use moment::asked;
pub use relation::{Relation, holds};
