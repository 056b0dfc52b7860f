//! Which features have a value inside a range, and ranges of one property joined.
//!
//! `area > 5 AND 9 > area` is the range of `area` without 5 and without 9; a feature without an area lies in no range of it.
//!
//! - [`Range`], [`Edge`], [`Scalar`]: the values of one property between two ends
//! - [`lies_in`]: whether a feature has a value inside a range
//! - [`range_between`]: the range from one end to another, if they are not turned round
//! - [`joined`]: the range of the values that lie in both of two
//! - [`order`]: the order of two values of one kind
#![tactic(auto)]

mod joining;
mod ordering;
mod within;

pub use cad_feature::{Edge, Range, Scalar};
pub use joining::{joined, range_between};
pub use ordering::order;
pub use within::lies_in;
