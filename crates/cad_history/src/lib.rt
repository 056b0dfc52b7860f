//! The features of a collection at every revision, and a register at one of them.
//!
//! - [`History`]: the features of a collection at the newest revision and at all before it, as rows with the periods of their values
//! - [`FeaturesAt`]: the features at one of these revisions, lent from the newest rows and the earlier ones: [`Past`]
//! - [`Histories`]: the history of each collection of a register
//! - [`Snapshot`]: the features of each collection at a revision, lent from histories with their indexes. It is built from the revision's
//!   versions, or is a handle of histories that have the revision
//! - [`laws`]: that the revisions of accepted commands are listings, how many commands there can be, and that each collection has its place in
//!   a table
//!
//! Parcel 1.1 is entered by revision 1 and closed by revision 4, which enters parcel 1.2. The newest rows are then 1.1 as it is closed and
//! 1.2, both from revision 4 on. An earlier row has 1.1 as it was, from revision 1 up to before revision 4. The snapshot of revision 3 has
//! the feature 1.1 among the parcels, without its end.
#![tactic(auto)]

mod counting;
mod ending;
mod histories;
mod history;
pub mod laws;
mod moment;
mod register_history;
mod settling;
mod snapshot;
mod starting;
mod version_history;

pub use histories::Histories;
pub use history::History;
pub use moment::{FeaturesAt, Past};
pub use snapshot::Snapshot;
