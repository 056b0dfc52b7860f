//! A land register as a ledger that gives its stored versions.

use crate::register::Register;
use cad_versions::{HistoryLedger, RegisterFault, StoredVersion};
use sqlite::Alter;

impl<S: Alter> HistoryLedger for Register<S> {
    fn stored_versions(&mut self) -> Result<Vec<StoredVersion>, RegisterFault> {
        Register::stored_versions(self)
    }
}
