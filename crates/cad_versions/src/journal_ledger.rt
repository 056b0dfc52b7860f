//! A ledger gives its accepted commands back, in pieces.

use crate::command::Command;
use crate::fault::RegisterFault;
use crate::ledger::Ledger;
use std::alloc::Global;

/// A ledger that gives back the commands that it accepted. They are read in pieces, between which it may accept others.
pub trait JournalLedger: Ledger {
    ghost use Rattle.std.specs.Prelude.{◌≡◌, ℕ, ℤ, List};
    ghost use Rattle.cad_versions.specs.declared.command.Command.{Command as CommandOf};
    ghost use Rattle.cad_versions.specs.declared.fault.RegisterFault.{RegisterFault as Fault};
    ghost use Rattle.cad_versions.specs.Keeping.{IsOfKeeping};
    ghost use Rattle.cad_versions.specs.Journals.{BeginsJournal, ReadsJournal, GivesJournal, ReadingsStay, ReadingsAreWithin};

    /// The commands after a revision, up to the newest when the reading began, as far as they were read.
    type Reading: Drop;

    // What it holds was read of a ledger of these commands.
    ghost has_read: { List CommandOf → Self.Reading → Type 0 };

    // It is of the commands after this revision.
    ghost behind_of: { Self.Reading → ℕ };

    // Up to this one.
    ghost newest_of: { Self.Reading → ℕ };

    // So many rows are not read yet.
    ghost rows_left: { Self.Reading → ℕ };

    // Why rows are not read.
    ghost fails_to_read: { List CommandOf → Fault → Type 0 };

    // The ledger's store itself refuses to give the next rows of the reading, at most so many.
    ghost refuses_reading: { Self → Self → Self.Reading → ℕ → Type 0 };

    // When asked for these rows, the store shows a damaged row with this object and this number, as they are stored.
    ghost damaged_for_reading: { Self → Self → Self.Reading → ℕ → ℤ → ℤ → Type 0 };

    /// Begins to read the commands after a revision, up to the newest. A revision above the newest is `UnknownRevision`.
    fn begin_journal(&self, behind: u64) -> Result<Self::Reading, RegisterFault>
        ensures { BeginsJournal Self.Ledger.stands_for has_read behind_of newest_of rows_left self.now behind result };

    /// Reads the next rows, at most `most`, and returns whether all were read. Commands may have been accepted since the last rows were
    /// read.
    fn read_on(&mut self, reading: &mut Self::Reading, most: u32) -> Result<bool, RegisterFault>
        ensures { ReadsJournal Self.Ledger.stands_for Self.Ledger.counts Self.Ledger.lives Self.Ledger.fails Self.Ledger.remains
            has_read behind_of newest_of rows_left fails_to_read refuses_reading damaged_for_reading
            self.old reading.old most result self.new reading.new };

    /// The commands, once all rows were read.
    fn commands(reading: Self::Reading, alloc: Global) -> Result<Vec<Command>, RegisterFault>
        requires { rows_left reading ≡ 0 }
        ensures { GivesJournal has_read behind_of newest_of reading result };

    /// Further commands change nothing of what a reading holds. The contract is a law; the function does nothing.
    fn readings_stay()
        ensures { ReadingsStay has_read };

    // A fault for which rows are not read is one of the ledger's store.
    ghost read_keeps: { (commands : List CommandOf) (fault : Fault) → fails_to_read commands fault → IsOfKeeping fault };

    // It is of commands that the ledger holds.
    ghost readings_are_within: { ReadingsAreWithin has_read behind_of newest_of };
}
