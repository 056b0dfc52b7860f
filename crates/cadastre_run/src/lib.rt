//! A run of the program: what a command line asks for, the work over any ledger and over the register of a file, and how it ended.
//!
//! - [`Command`], [`Service`]: what the words of a command line ask for
//! - `answer_over`, `answer_sample`: one connection, over a reader and a writer, served over a ledger
//! - `listen_over`: connections taken at an address and served over a ledger
//! - [`prepared_server`]: a server that has read what its ledger stores, as it serves at an address
//! - `enter_commands`: the lines of the land office entered into a ledger
//! - `run_ask`, `run_serve`, `run_office`: the same over the register of a file, whose database [`close`] closes afterwards
//! - `run_sample`: one connection served over the sample register, in a database in memory
//! - [`Outcome`]: how a run ended, its status, and its message
//!
//! `cadastre`, the program, lends the last calls its streams, and says how the run ended.
//!
//! ```text
//! Command::of_words(&["cadastre", "serve", "land.db", "127.0.0.1:0", "3"])
//!     // Some(Command::Serve { file: "land.db", service: Service { address: "127.0.0.1:0", count: 3 } })
//! answer_sample(alloc, MemoryLedger::new(alloc), &mut input, &mut output).0.status()
//!     // 0 once the peer ended or a reply closed the connection
//! ```
#![tactic(auto)]

mod command;
mod entering;
mod file_listening;
mod file_runs;
mod listening;
mod outcome;
mod preparing;
mod sampling;
mod serving;

pub use command::{Command, Service};
pub use entering::enter_commands;
pub use file_listening::run_serve;
pub use file_runs::{Ran, close, run_ask, run_office};
pub use listening::listen_over;
pub use outcome::Outcome;
pub use preparing::prepared_server;
pub use sampling::run_sample;
pub use serving::{answer_over, answer_sample};
