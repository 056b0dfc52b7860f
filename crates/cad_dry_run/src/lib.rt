//! A dry run of the land office: what it would answer to lines, and why a line is no command.
//!
//! - `explain`: the command that a line asks for, or why and where it is not a command.
//! - `Explanation`, `Cause`: why a line is no command, and where.
//! - `enter_all`: enters a journal into a ledger, which becomes a copy of the one that gave it.
//! - `check`: reads lines to their end, applies each command and prints a report for each line.
//! - `Report`: what would come of a line; `no_command` is the report for a line that is no command.
//!
//! `check` works on any `Ledger` that may be changed, such as a copy in memory that `enter_all` made. On an empty one the lines
//!
//!     {"do":"enter","object":11,"first":"2000-01-01","unit":{}}
//!     {"do":"enter","object":11,"first":"2000-01-01","unit":{}}
//!     {"do":"enter","object":12,"first":"2000-02-30","unit":{}}
//!
//! are reported by
//!
//!     would be 1
//!     refused 1 KnownObject
//!     no command at 34: first: not a day YYYY-MM-DD
#![tactic(auto)]

mod body;
mod cause;
mod cause_place;
mod copying;
mod explaining;
mod member_name;
mod members;
mod nesting;
mod object;
mod outline;
mod place;
mod report;
mod stop;
mod turns;
mod values;
mod words;

pub use cause::{Cause, Explanation, MemberCause, ObjectCause, RingCause, ValueFault};
pub use copying::enter_all;
pub use explaining::{Explained, explain};
pub use member_name::MemberName;
pub use report::{Report, no_command, print_report};
pub use turns::check;
