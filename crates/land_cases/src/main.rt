//! Cases of the land side. The input has parts, and a line `= NAME` begins each of them:
//!
//! - `= days`: days, intervals and their relations
//! - `= shapes`: rings, regions, segments and the relations of shapes
//! - `= office`: lines of the land office over a ledger in memory
//! - `= features`: commands, and the features that they make, as JSON
//! - `= histories`: commands, and the features of each revision, by the histories that are made of the stored versions
//! - `= rows`: the same, by rows with periods that each command extends
//! - `= starts`: the same to a register in a database in memory, by the histories that a start makes
//! - `= journals`: commands to a register in a database in memory, and questions to it
//! - `= memory journals`: the same to a ledger in memory
//! - `= dry run`: lines of a dry run over a ledger in memory
//!
//! The module of a part says how its lines are answered. The answers are printed in this order of the parts.
//!
//! The status is 0 if all lines were read. It is the number of the office's fault if the office or a dry run ends before. It is 100 if the
//! input cannot be read, or if another answer cannot be printed.
#![tactic(auto)]

mod days;
mod dry_run;
mod features;
mod histories;
mod journals;
mod memory_journals;
mod office_lines;
mod parts;
mod rows;
mod shapes;
mod starts;
mod stop;

use parts::lines_of;
use std::io::Read;
use std::process::ExitCode;
use stop::Stop;

/// Prints the answers to the parts of the input. A line break before its first byte makes each line of a part's name follow one.
fn run(rt: &HostRuntime) -> Result<(), Stop> {
    let mut input = vec![in rt.alloc(); b'\n']?;
    rt.stdin().read_to_end(&mut input)?;
    days::print_answers(rt, lines_of(&input, b"\n= days"))?;
    shapes::print_answers(rt, lines_of(&input, b"\n= shapes"))?;
    office_lines::print_answers(rt, lines_of(&input, b"\n= office"))?;
    features::print_answers(rt, lines_of(&input, b"\n= features"))?;
    histories::print_answers(rt, lines_of(&input, b"\n= histories"))?;
    rows::print_answers(rt, lines_of(&input, b"\n= rows"))?;
    starts::print_answers(rt, lines_of(&input, b"\n= starts"))?;
    journals::print_answers(rt, lines_of(&input, b"\n= journals"))?;
    memory_journals::print_answers(rt, lines_of(&input, b"\n= memory journals"))?;
    dry_run::print_reports(rt, lines_of(&input, b"\n= dry run"))?;
    Ok(())
}

fn main(rt: HostRuntime) -> ExitCode {
    match run(&rt) {
        Ok(()) => ExitCode::from(0),
        Err(stop) => ExitCode::from(stop.status()),
    }
}
