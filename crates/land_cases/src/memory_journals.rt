//! Commands to a ledger in memory, and questions to it by the lines of `journals`.
//!
//! Such a ledger copies all commands of a journal when the line `begin N` begins to read it. So the next line `read K` is answered by the
//! journal, no matter how many rows it asks for, and never by `more`.

use crate::journals::{
    Line, check_line, enter_line, error_of, line_of, print_chain, print_commands, print_refusal,
};
use cad_memory_ledger::{MemoryLedger, MemoryReading};
use cad_versions::{JournalLedger, Ledger};
use std::io::Result;

/// Prints the journal of a reading, up to this revision.
fn print_read(rt: &HostRuntime, reading: MemoryReading, newest: u64) -> Result<()> {
    match MemoryLedger::commands(reading, rt.alloc()) {
        Ok(commands) => print_commands(rt, commands, newest),
        Err(fault) => Err(error_of(fault)),
    }
}

/// A journal that is read, and the revision up to which it goes.
#[derive(Drop)]
struct Begun {
    reading: MemoryReading,
    newest: u64,
}

/// The ledger, and the journal that is read in pieces, if one was begun.
#[derive(Drop)]
struct MemoryJournals {
    ledger: MemoryLedger,
    begun: Option<Begun>,
}

impl MemoryJournals {
    /// Prints the journal after a revision, or the ledger's refusal.
    fn print_journal(&self, rt: &HostRuntime, behind: u64) -> Result<()> {
        match self.ledger.begin_journal(behind) {
            Ok(reading) => print_read(rt, reading, self.ledger.revision()),
            Err(fault) => print_refusal(rt, fault),
        }
    }

    /// Prints the chain of all commands, or the ledger's refusal.
    fn print_chain(&self, rt: &HostRuntime) -> Result<()> {
        let reading = match self.ledger.begin_journal(0) {
            Ok(reading) => reading,
            Err(fault) => return print_refusal(rt, fault),
        };
        match MemoryLedger::commands(reading, rt.alloc()) {
            Ok(commands) => print_chain(rt, commands),
            Err(fault) => Err(error_of(fault)),
        }
    }

    /// Begins to read a journal, in the place of any other one.
    fn begin(&mut self, rt: &HostRuntime, behind: u64) -> Result<()> {
        match self.ledger.begin_journal(behind) {
            Ok(reading) => {
                let newest = self.ledger.revision();
                println!(rt; "begun {newest}")?;
                self.begun = Some(Begun { reading, newest });
                Ok(())
            }
            Err(fault) => print_refusal(rt, fault),
        }
    }

    /// Reads the next rows, and prints the journal if these were the last.
    fn read_on(&mut self, rt: &HostRuntime, most: u32) -> Result<()> {
        let Some(mut begun) = self.begun.take() else {
            return println!(rt; "no journal");
        };
        match self.ledger.read_on(&mut begun.reading, most) {
            Ok(true) => print_read(rt, begun.reading, begun.newest),
            Ok(false) => {
                self.begun = Some(begun);
                println!(rt; "more")
            }
            Err(fault) => Err(error_of(fault)),
        }
    }

    /// Prints the answer to a line.
    fn answer(&mut self, rt: &HostRuntime, line: &[u8]) -> Result<()> {
        match line_of(line) {
            Line::Check(checked) => check_line(rt, &mut self.ledger, checked),
            Line::Chain => self.print_chain(rt),
            Line::Journal(behind) => self.print_journal(rt, behind),
            Line::Begin(behind) => self.begin(rt, behind),
            Line::Read(most) => self.read_on(rt, most),
            Line::Office => enter_line(rt, &mut self.ledger, line),
        }
    }
}

/// Enters the lines into a ledger of their own, and prints the journals that lines between them request.
pub(crate) fn print_answers(rt: &HostRuntime, lines: &[u8]) -> Result<()> {
    let mut journals = MemoryJournals {
        ledger: MemoryLedger::new(rt.alloc()),
        begun: None,
    };
    for line in lines.split(|byte| *byte == b'\n') {
        journals.answer(rt, line)?;
    }
    Ok(())
}
