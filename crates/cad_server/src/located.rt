//! Where the answer to a request is.

use cad_ask::Ask;
use cad_history::Snapshot;
use cad_request::Response;

/// Where the answer to a request is.
#[derive(Drop)]
pub(crate) enum Located {
    /// Its response.
    Response(Response),
    /// A page, which is to be made.
    Page {
        /// What is asked for.
        ask: Ask,
        /// The features of the revision that is shown.
        snapshot: Snapshot,
    },
}
