//! The cadastre feature server for many clients, and the land office, in one process.
//!
//! `words` prints what the program says of itself. `cadastred_run` reads the command line, does the work over the register of a file, and says
//! how a run ends.
//!
//! - `cadastred land.db 127.0.0.1:8080 office.sock` serves the register of a file at an address, to many clients at once. It also
//!   takes the land office's lines at a Unix socket. If there is no register, it makes one. It prints `listening ADDRESS`, and
//!   ends at the office's line `stop`;
//! - `cadastred --log land.db 127.0.0.1:8080 office.sock` also writes a line to standard error for each response;
//! - `cadastred --journal land.db` prints the journal of the file's register: each accepted command as a line that the land office takes,
//!   and then `end N`;
//! - `cadastred --check land.db` prints for each line of standard input what the file's register would answer to it after the lines before
//!   it. Nothing is entered in the file;
//! - `cadastred --help` and `cadastred --version` print the usage and the version.
#![tactic(auto)]

mod words;

use cad_io::Counted;
use cad_serve::{read_words, tell};
use cadastred_run::{Invocation, Outcome, close, run_check, run_journal, run_service};
use sqlite::Unknown;
use std::process::ExitCode;
use words::{Work, begin};

/// Checks the lines of standard input on a copy of the register of a file, and prints the reports.
fn check(rt: &HostRuntime, file: &str) -> Outcome {
    close(run_check(
        rt,
        file,
        Unknown,
        &mut Counted::new(rt.stdin()),
        &mut rt.stdout(),
    ))
}

fn run(rt: &HostRuntime) -> Outcome {
    let words = match read_words(rt) {
        Ok(words) => words,
        Err(cause) => return Outcome::without_arguments(cause),
    };
    match begin(Invocation::of_words(&words), &mut rt.stdout()) {
        Ok(Work::Serve(service)) => close(run_service(rt, service, Unknown, &mut rt.stdout())),
        Ok(Work::PrintJournal(file)) => close(run_journal(rt, file, Unknown, &mut rt.stdout())),
        Ok(Work::CheckLines(file)) => check(rt, file),
        Err(outcome) => outcome,
    }
}

fn main(rt: HostRuntime) -> ExitCode {
    let outcome = run(&rt);
    // If this line cannot be written, only the status reports the outcome.
    let _ = tell(&mut rt.stderr(), outcome.message());
    ExitCode::from(outcome.status())
}
