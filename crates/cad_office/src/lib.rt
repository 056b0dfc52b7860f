//! The land office: commands in lines of text, and what is printed for each.
//!
//! - `office`: reads lines to their end, applies each command and prints an answer for each line.
//! - `OfficeFault`: why the office stops before its input ends.
//! - `JournalLines`: commands as lines that the office takes, a piece at a time.
//! - `laws`: what holds of all lines.
//!
//! It works on any `Ledger`, as a land register. On an empty one the lines
//!
//!     {"do":"enter","object":11,"first":"2000-01-01","unit":{}}
//!     {"do":"enter","object":11,"first":"2000-01-01","unit":{}}
//!     hello
//!
//! are answered by
//!
//!     revision 1
//!     refused 1 KnownObject
//!     refused 0 NotACommand
#![tactic(auto)]

mod fault;
mod journal;
mod journal_text;
pub mod laws;
mod line;
mod print;
mod turns;
mod write;

pub use cad_versions::Ledger;
pub use fault::OfficeFault;
pub use journal::JournalLines;
pub use line::{Line, LineState};
pub use print::{Answer, print_answer};
pub use turns::office;
