//! The normal form of a filter: NOT is above no condition, constants are computed, comparisons with constants are
//! ranges, and ranges of one property under one AND are joined.
//!
//! - [`normal`]: the normal form of a filter. Of `NOT (area < 3 OR area > 8)` it is the range of `area` from 3 to 8.
//! - [`Normal`]: a normal form; it borrows from the filter the conditions that are not ranges.
//! - [`both`]: the AND of two normal forms
//! - [`box_condition`]: that the geometry meets a box, as a filter: what `bbox` adds to the filter of a request. In a collection
//!   without geometry it is true of no feature
//! - [`test`]: whether a feature meets the form, which it does exactly if the filter is true of the feature
//! - [`laws`]: what holds of normal forms, beyond what each call says
#![tactic(auto)]

mod between;
mod boxes;
mod comparison;
mod flags;
mod folded;
mod folded_equality;
mod folded_like;
mod form;
pub mod laws;
mod likes;
mod members;
mod parts;
mod plain;
mod rewrite;
mod spatial;
mod terms;
mod tested;

pub use boxes::box_condition;
pub use form::Normal;
pub use parts::both;
pub use rewrite::normal;
pub use tested::test;
