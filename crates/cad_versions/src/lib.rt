//! The versions of a land register: what the register keeps, and how commands change it.
//!
//! - `ObjectId`, `Words`, `Share`: values that cannot hold what the register must not.
//! - `Identifier`: the object and the number of a version, as the text `3.1`; `compare_identifiers` is their order.
//! - `Body`, `Class`, `Version`: one version of an object, what it says, and the class of the object.
//! - `StoredVersion`: a version with the revisions that entered and closed it.
//! - `BodyParts`, `LentParts`: what a body says, part by part, for any class.
//! - `Command`, `RegisterFault`: what the land office asks for, and why it is refused.
//! - `MOST_NUMBER`, `MOST_VERSIONS`: how large numbers may be, and how many versions there may be.
//! - `Ledger`: accepts commands, and gives the versions at a revision. A `JournalLedger` also gives its commands back, in pieces; a
//!   `HistoryLedger` gives all versions that it stores.
//! - `laws`: what holds of every register, no matter which commands made it.
//!
//! ```text
//! ObjectId::new(0)                                          // None: numbers begin at 1
//! ObjectId::new(11)                                         // Some
//! Words::new("Mill")                                        // Ok
//! Words::new("")                                            // Err: a text has at least one byte
//! Share::new(1, 2)                                          // Some: a half
//! Body::Unit { name: None }.class()                         // Class::Unit
//! ```
#![tactic(auto)]

mod body;
mod body_parts;
mod command;
mod copies;
mod decision;
mod fault;
mod history_ledger;
mod identifier;
mod identifier_order;
mod journal_ledger;
pub mod laws;
mod ledger;
mod limits;
mod object_id;
mod ring_bytes;
mod shape_bytes;
mod share;
mod stored_version;
mod version;
mod words;

pub use body::{Body, Class};
pub use body_parts::{BodyParts, LentParts};
pub use command::Command;
pub use fault::RegisterFault;
pub use history_ledger::HistoryLedger;
pub use identifier::Identifier;
pub use identifier_order::compare_identifiers;
pub use journal_ledger::JournalLedger;
pub use ledger::Ledger;
pub use limits::{MOST_NUMBER, MOST_VERSIONS};
pub use object_id::ObjectId;
pub use shape_bytes::{read_shape, write_shape};
pub use share::Share;
pub use stored_version::StoredVersion;
pub use version::Version;
pub use words::Words;
