//! A ledger in memory: the definition of a ledger, run as it is written.
//!
//! Versions are kept in the order of their entry, each with the revision that entered it and the one that closed it. The commands are kept,
//! too, so that their journal can be read.
//!
//! ```text
//! let mut ledger = MemoryLedger::new(alloc);
//! ledger.apply(Command::Enter { object, first, body })    // Ok(1)
//! ledger.as_of(1)                                         // Ok, with that version, which is open
//! ledger.as_of(2)                                         // Err(UnknownRevision)
//! ```
#![tactic(auto)]

mod entering;
mod ledger;
mod reading;
mod showing;
mod standing;
mod stored_version;
mod versions;
mod writing;

pub use ledger::MemoryLedger;
pub use reading::MemoryReading;
