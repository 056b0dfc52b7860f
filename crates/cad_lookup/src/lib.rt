//! Plans: which features of a collection are looked at for an answer.
//!
//! - [`Plan`]: all features, none, those with a value in a range or with a shape near a box, those of all of some plans or of any
//! - [`laws`]: what holds of plans, beyond what each call says
//!
//! Of the parcels 1.1, 1.2, 2.1, 3.1 and 4.1, the plan of the range of `object` from 3 to 3 has only the candidate 3.1; the
//! join of two such plans has each of its candidates once.
#![tactic(auto)]

pub mod laws;
mod plan;

pub use plan::Plan;
