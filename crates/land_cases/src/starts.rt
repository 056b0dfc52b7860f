//! Commands in lines of the land office, and the features of each revision, by the histories that a start makes.
//!
//! The lines are entered into a register in a database in memory, and answered as the office does. The features are printed as those of
//! `histories`, from the versions that the register stores.

use crate::histories::print_ledger;
use crate::journals::empty_register;
use crate::office_lines::enter_lines;
use crate::stop::Stop;

/// Enters the lines, and prints the answers and the features of each revision.
pub(crate) fn print_answers(rt: &HostRuntime, lines: &[u8]) -> Result<(), Stop> {
    let mut register = empty_register(rt.alloc())?;
    enter_lines(rt, lines, &mut register)?;
    print_ledger(rt, &mut register)?;
    Ok(())
}
