//! Marks of places, one bit each.
//!
//! - [`Marks`]: which of 64 places for each word are marked
//!
//! If 5 and 70 of 128 places are marked, bit 5 of the first word is set, and bit 6 of the second one.
#![tactic(auto)]

mod marks;

pub use marks::Marks;
