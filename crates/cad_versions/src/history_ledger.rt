//! A ledger gives the versions that it stores.

use crate::fault::RegisterFault;
use crate::ledger::Ledger;
use crate::stored_version::StoredVersion;

/// A ledger that gives all versions that it stores, with the revisions that entered and closed them.
pub trait HistoryLedger: Ledger {
    ghost use Rattle.cad_versions.specs.HistoryLedgers.{ListsEntries};

    /// The stored versions, by object and number. Why they are not given is why the newest revision would not be listed.
    fn stored_versions(&mut self) -> Result<Vec<StoredVersion>, RegisterFault>
        ensures { ListsEntries Self.Ledger.stands_for Self.Ledger.counts Self.Ledger.lives Self.Ledger.fails
            Self.Ledger.fails_to_list Self.Ledger.refuses_listing Self.Ledger.damaged_for_listing Self.Ledger.remains
            (Self.Ledger.newest self.old) self.old result self.new };
}
