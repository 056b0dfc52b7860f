//! From the text of a filter to the filter, or the first fault of the text.
//!
//! - [`read`]: the filter of a collection that a text spells. Of the parcels, `area > 400` is the property at place 6
//!   compared with the constant 400; of `label > 5` it reports `WrongKind` at byte 8.
//! - [`FilterFault`]: why a text gave no filter. A [`Cause`] has the fault's name and place.
//! - [`laws`]: a text is a filter of a collection or has one first fault, and never both.
#![tactic(auto)]

mod cause;
pub mod laws;
mod reading;

pub use cause::{Cause, FilterFault};
pub use reading::read;
