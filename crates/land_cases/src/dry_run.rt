//! Lines of a dry run of the land office, reported over a ledger in memory that is empty at first.
//!
//! The lines are each cause of docs/OFFICE.md several times, limits from both sides, several faults in one line, and bytes that are no text.
//! `scripts/dry_run_cases.py` writes them. The first one, `{"do":"enter","object":10,"first":"2000-01-01","unit":{"name":"Mill"}}`, is
//! reported by `would be 1`.

use cad_dry_run::check;
use cad_io::Counted;
use cad_memory_ledger::MemoryLedger;
use cad_office::OfficeFault;
use std::io::Cursor;

/// Tries the lines one after the other and prints the reports.
pub(crate) fn print_reports(rt: &HostRuntime, lines: &[u8]) -> Result<(), OfficeFault> {
    let mut reader = Counted::new(Cursor::new(lines));
    let mut ledger = MemoryLedger::new(rt.alloc());
    check(rt.alloc(), &mut reader, &mut rt.stdout(), &mut ledger)?;
    Ok(())
}
