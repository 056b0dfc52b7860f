//! The features of all revisions, what is known of the commands together, and snapshots of some revisions.

ghost use Rattle.std.specs.Prelude.{◌≡◌};
ghost use Rattle.cad_server.specs.inner.Rooms.{most_snapshots};

use crate::totals::Totals;
use cad_history::{Histories, Snapshot};
use lru::LruCache;
use std::rc::Rc;

/// The histories of all collections and the totals of the commands, once they were read from the ledger, and handles of the histories at the
/// revisions that were asked for last.
#[derive(Drop)]
pub(crate) struct SnapshotCache {
    /// The features at every revision.
    pub(crate) histories: Option<Rc<Histories>>,
    /// What is known of the commands together.
    pub(crate) totals: Totals,
    /// By revision.
    pub(crate) snapshots: LruCache<u64, Snapshot>,
    /// There is room for a few.
    pub(crate) ghost few: { snapshots.cap ≡ most_snapshots },
}
