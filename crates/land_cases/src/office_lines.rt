//! Lines of the land office, answered over a ledger in memory.
//!
//! The lines are docs/OFFICE.md row by row, each limit from both sides, and bytes that are no text. The first line,
//! `{"do":"enter","object":11,"first":"2000-01-01","unit":{}}`, is answered by `revision 1`, and the fourth,
//! `{"do":"retire","object":99,"last":"2000-01-01"}`, by `refused 2 UnknownObject`.

use cad_io::Counted;
use cad_memory_ledger::MemoryLedger;
use cad_office::{OfficeFault, office};
use cad_versions::Ledger;
use std::io::Cursor;

/// Enters the lines into the ledger and prints the answers.
pub(crate) fn enter_lines<L: Ledger>(
    rt: &HostRuntime,
    lines: &[u8],
    ledger: &mut L,
) -> Result<(), OfficeFault> {
    let mut reader = Counted::new(Cursor::new(lines));
    office(rt.alloc(), &mut reader, &mut rt.stdout(), ledger)?;
    Ok(())
}

/// Enters the lines into a ledger of their own and prints the answers.
pub(crate) fn print_answers(rt: &HostRuntime, lines: &[u8]) -> Result<(), OfficeFault> {
    enter_lines(rt, lines, &mut MemoryLedger::new(rt.alloc()))
}
