//! What holds of every register, and of the rows in which it is stored. Each contract is a law; the functions do nothing.

ghost use Rattle.cad_register.specs.Laws.{RowsAreOfOneEntry, RegisterRowsAreSound, EntriesGiveTheirCommands, ListingsGiveTheirCommands, EnteredStandsForAll, JournalsAreAccepted};
ghost use Rattle.cad_register.specs.JournalReading.{ReadingsStay};

use cad_versions::Ledger;
pub use cad_versions::laws::{
    bytes_are_of_one_shape, objects_end_when_retired, revisions_are_seen, revisions_stay,
    versions_are_histories,
};
use sqlite::Alter;

/// A row represents at most one entry.
pub fn rows_are_of_one_entry()
    ensures { RowsAreOfOneEntry }
{}

/// The rows that a revision of a register lists break no rule of their type.
pub fn register_rows_are_sound<S: Alter>()
    ensures { RegisterRowsAreSound S.Store }
{}

/// Of the entries that accepted commands make, the revisions after any one show the commands after it, and no others.
pub fn entries_give_their_commands()
    ensures { EntriesGiveTheirCommands }
{}

/// The same of the entries as a register lists them, by object and number.
pub fn listings_give_their_commands()
    ensures { ListingsGiveTheirCommands }
{}

/// A ledger into which the commands of a journal were entered holds them after those that it held before.
pub fn entered_stands_for_all<L: Ledger>()
    ensures { EnteredStandsForAll L.Ledger }
{}

/// If a command of a journal, in its place, is refused, only the ledger's store refuses it.
pub fn journals_are_accepted<L: Ledger>()
    ensures { JournalsAreAccepted L.Ledger }
{}

/// What a reading of a journal holds stays what it is while further commands are accepted.
pub fn readings_stay()
    ensures { ReadingsStay }
{}
