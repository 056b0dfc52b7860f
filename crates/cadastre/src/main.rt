//! The cadastre feature server.
//!
//! What a command line asks for, the work that it asks for, and how a run ends are in `cadastre_run`.
//!
//! - `cadastre sample` serves standard input over the sample register;
//! - `cadastre ask land.db` serves it over the register of a file;
//! - `cadastre serve land.db 127.0.0.1:8080 100` takes 100 connections at an address, one after the other, over that register;
//! - `cadastre office land.db` enters the commands of standard input into it, and makes the register if it does not exist.
#![tactic(auto)]

use cad_io::{Counted, CountedWriter};
use cad_serve::{read_words, tell};
use cadastre_run::{Command, Outcome, Service, close, run_ask, run_office, run_sample, run_serve};
use sqlite::Unknown;
use std::process::ExitCode;

/// Serves standard input over the sample register.
fn sample(rt: &HostRuntime) -> Outcome {
    run_sample(
        rt.alloc(),
        &mut Counted::new(rt.stdin()),
        &mut CountedWriter::new(rt.stdout()),
    )
}

/// Serves standard input over the register of a file.
fn ask(rt: &HostRuntime, file: &str) -> Outcome {
    close(run_ask(
        rt,
        file,
        Unknown,
        &mut Counted::new(rt.stdin()),
        &mut CountedWriter::new(rt.stdout()),
    ))
}

/// Enters the commands of standard input into the register of a file, and prints the answers.
fn office(rt: &HostRuntime, file: &str) -> Outcome {
    close(run_office(
        rt,
        file,
        Unknown,
        &mut Counted::new(rt.stdin()),
        &mut rt.stdout(),
    ))
}

/// Listens for connections over the register of a file. The address is reported on standard output, and what goes wrong with a connection
/// on standard error.
fn serve(rt: &HostRuntime, file: &str, service: Service<'_>) -> Outcome {
    close(run_serve(
        rt,
        file,
        Unknown,
        service,
        &mut rt.stdout(),
        &mut rt.stderr(),
    ))
}

fn run(rt: &HostRuntime) -> Outcome {
    let words = match read_words(rt) {
        Ok(words) => words,
        Err(cause) => return Outcome::without_arguments(cause),
    };
    match Command::of_words(&words) {
        Some(Command::Sample) => sample(rt),
        Some(Command::Ask(file)) => ask(rt, file),
        Some(Command::Serve { file, service }) => serve(rt, file, service),
        Some(Command::Office(file)) => office(rt, file),
        None => Outcome::Usage,
    }
}

fn main(rt: HostRuntime) -> ExitCode {
    let outcome = run(&rt);
    // If the message cannot be written, only the status reports the outcome.
    let _ = tell(&mut rt.stderr(), outcome.message());
    ExitCode::from(outcome.status())
}
