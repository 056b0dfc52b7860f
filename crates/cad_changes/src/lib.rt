//! What a command changes of the features of a revision.
//!
//! - [`touched`]: the features of a collection that a command adds or changes, determined by the features before it
//! - [`history_after`]: the features of a collection at every revision, after a command
//! - [`histories_after`]: the same of all collections
//! - `laws`: that the features after a command are those before it with these merged, and more
//!
//! Unit 10 is called Mill from 2000-01-01 on, and parcel 1 and right 20 of it begin on 2000-01-01 and on 2005-03-01. Then a command
//! that amends unit 10 on 2003-01-01 touches two of its versions among the units, none of the parcels, and right 20.
#![tactic(auto)]

mod adding;
mod collections;
mod dependents;
mod edits;
mod extending;
pub mod laws;
mod leaving;
mod reading;
mod touching;

pub use collections::histories_after;
pub use extending::history_after;
pub use touching::touched;
