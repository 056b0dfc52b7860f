//! A run of a server for many clients: what a command line asks for, the work over any ledger and over the register of a file, and how it
//! ended.
//!
//! - `Invocation`, `Service`: what the words of a command line ask for
//! - `open_doors`: the sockets of a service, `Doors`; `remove_door` removes the one that is a file
//! - `host_over`: clients and the land office taken at a network and served over a ledger
//! - `check_over`: lines checked on a copy of a ledger
//! - `run_service`, `run_journal`, `run_check`: the register of a file served, its journal printed, and lines checked on a copy of it; the
//!   file's database is closed by [`close`] afterwards
//! - `Outcome`: how a run ended, its status, and the line that reports it
//! - `Log`: a line of a log of access for each reply, with no byte of a client's that is not printable, or nothing
//!
//! No contract can say what is done to files. So a reader has to check in `Doors` that only the owner and the group of the office's socket
//! have rights to it, and that a socket which nobody answers is removed before.
//!
//! ```text
//! Invocation::of_words(&["cadastred", "land.db", "127.0.0.1:0", "office"])
//!     // Some(Invocation::Serve(Service { file: "land.db", address: "127.0.0.1:0", office: "office", logs: false, chains: false }))
//! host_over(alloc, rt, &mut net, &mut ledger, &mut Log::new(&rt, alloc, Some(rt.stderr()))?, ..)
//!     // writes for a reply: 2026-11-25T02:13:00Z 127.0.0.1:40123 "GET / HTTP/1.1" 200 503 -
//! ```
#![tactic(auto)]

mod access;
mod chaining;
mod checking;
mod doors;
mod file_checking;
mod file_hosting;
mod file_journal;
mod hosting;
mod invocation;
mod log;
mod moment;
mod outcome;
mod printable;
mod reply;
mod request;

pub use checking::check_over;
pub use doors::{Doors, remove_door};
pub use file_checking::run_check;
pub use file_hosting::{Ran, close, run_service};
pub use file_journal::run_journal;
pub use hosting::{host_over, open_doors};
pub use invocation::{Invocation, Service};
pub use log::Log;
pub use outcome::{HELP, Outcome};
