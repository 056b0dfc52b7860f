//! The features of one collection at one of several revisions: segments, each a base with its indexes, which revisions share, and the
//! changes to it.
//!
//! - [`Layer`]: all segments, seen as their features with the changes merged, which it counts by the bases' indexes
//! - [`Segment`]: the features of the objects between two numbers: [`Indexed`] features, and recent changes to them
//! - [`Indexed`]: a base, and older changes to it, each with indexes
//! - [`Change`]: a feature that changes a base, which lists of changes share; [`as_changes`], [`changes_after`]: these features as changes,
//!   and the changes after one of them
//! - [`Walk`]: a walk through both, in the order of identifiers
//! - [`merge`], [`found`]: all of a list and the changes to it, and one of a list
//! - [`segments_from`]: the segments from that of an object on
//! - `laws`: that changes may be merged with one another first, and that identifiers are unique
//!
//! A base of the parcels 1.1 and 2.1 with the changes 1.1, which is now closed, and 1.2, has the features 1.1 as changed, 1.2 and
//! 2.1.
#![tactic(auto)]

mod adding;
mod both;
mod change;
mod changed;
mod copies;
mod counting;
mod criterion;
mod cutting;
mod findable;
mod finding;
mod indexed;
pub mod laws;
mod layer;
mod merging;
mod moment;
mod placed;
mod recent;
mod renewing;
mod replacing;
mod searching;
mod segment;
mod spreading;
mod summing;
mod walk;

pub use change::{Change, as_changes};
pub use changed::changes_after;
pub use finding::found;
pub use indexed::Indexed;
pub use layer::{Layer, OF_A_SEGMENT};
pub use merging::merge;
pub use searching::segments_from;
pub use segment::Segment;
pub use walk::Walk;
