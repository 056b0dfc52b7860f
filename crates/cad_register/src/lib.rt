//! The land register: versions in SQLite, and the register at any revision.
//!
//! - `Register`: made by `create`, `open` or `open_or_create` over a connection, changed by `apply`, read by `as_of`; `journal` gives its commands back, `stored_versions` all versions as they are stored.
//! - `JournalReading`: a journal that is read in pieces, by `begin_journal` and `read_on`, between which commands may be accepted.
//! - `open_file`, `open_standing_file`: open the database of a file over what it held.
//! - `laws`: what holds of every register, and of the rows that it is kept in.
//! - The types of versions, commands and faults are those of `cad_versions`.
//!
//! ```text
//! let mut register = Register::open_or_create(alloc, open_file(rt, "land.db", Unknown)?)?;
//! register.apply(Command::Enter { object, first, body })    // Ok(1), once it is on the disk
//! register.as_of(1)                                         // Ok, with that version, which is open
//! register.apply(Command::Enter { object, first, body })    // Err(KnownObject), and nothing changed
//! ```
#![tactic(auto)]

mod asking;
mod cells;
mod changing;
mod columns;
mod decision;
mod file;
mod found;
mod gathering;
mod history_ledger;
mod journal;
mod journal_ledger;
mod journal_reading;
pub mod laws;
mod ledger;
mod listing;
mod parts;
mod place;
mod register;
mod slots;
mod standing;
mod stored_version;
mod writing;

pub use cad_versions::{Body, Class, Command, ObjectId, RegisterFault, Share, Version, Words};
pub use file::{open_file, open_standing_file};
pub use journal_reading::JournalReading;
pub use register::{Register, Revision};
