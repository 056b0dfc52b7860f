//! What the land office asks for, as JSON: which object says which command, and how it is read and written.
//!
//! - `read_command`: the command that a text says.
//! - `CommandError`: why a text gives no command.
//! - `write_command`: a text that says a command, in one line.
//! - `Chain`, `chain_of`: a digest of commands in their order.
//! - `laws`: what holds of every text, no matter who reads it.
//!
//! A command is a JSON object of the members `do`, `object` and a day, with one member named by the object's class if a version begins. The
//! text
//!
//!     {"do":"retire","object":3,"last":"2020-12-31"}
//!
//! gives `Command::Retire { object, last }` of object 3 and the last day of 2020, with its members in any order. specs/Commands and
//! specs/Bodies say which object says what.
#![tactic(auto)]

mod bodies_json;
mod body;
mod chain;
mod command;
mod command_error;
pub mod laws;
mod members;
mod operation;
mod outline;
mod values;
mod values_json;
mod writing;

pub use chain::{Chain, chain_of};
pub use command::read_command;
pub use command_error::CommandError;
pub use writing::write_command;
