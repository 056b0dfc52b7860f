//! Commands to a register in a database in memory, and questions to it by lines between them.
//!
//! A command is entered and answered as the office does. The line `journal N` is answered by the journal after revision N, a command a line,
//! and `end R`, with R the revision at that time:
//!
//! ```text
//! {"do":"enter","first":"2000-01-01","object":11,"unit":{"name":null}}
//! end 1
//! ```
//!
//! The line `begin N` begins to read this journal in pieces, and is answered by `begun R`. The line `read K` reads at most K rows of the
//! table. It is answered by `more`, or by the journal up to revision R once all rows were read. Commands may be entered in between.
//!
//! The line `chain` is answered by the chain of all commands, as `chain` and 64 hexadecimal digits.
//!
//! The line `check LINE` is answered by what would be answered to LINE, which is not entered: `would be N` in place of `revision N`.

ghost use Rattle.std.specs.Prelude.{IsTrue};
ghost use Rattle.cad_register.specs.JournalReading.{is_whole};

use cad_commands::{CommandError, chain_of, read_command};
use cad_io::{Counted, number};
use cad_office::{Answer, JournalLines, office, print_answer};
use cad_register::{Command, JournalReading, Register, RegisterFault};
use cad_versions::Ledger;
use hex::encode;
use sqlite::{Connection, MemStore};
use std::alloc::Global;
use std::io::{Cursor, Error, ErrorKind, Result};

/// The most commands of a piece of a journal.
const PIECE: usize = 16;

/// The error that ends the program if a ledger refuses.
pub(crate) fn error_of(fault: RegisterFault) -> Error {
    match fault {
        RegisterFault::Memory => Error::from(ErrorKind::OutOfMemory),
        _ => Error::from(ErrorKind::Other),
    }
}

/// A register without commands.
pub(crate) fn empty_register(alloc: Global) -> Result<Register<MemStore>> {
    let connection = Connection::open_in_memory(alloc)?;
    match Register::create(alloc, connection) {
        Ok(register) => Ok(register),
        Err((fault, _)) => Err(error_of(fault)),
    }
}

/// Prints the lines of the commands, piece by piece, and the end.
pub(crate) fn print_commands(rt: &HostRuntime, commands: Vec<Command>, newest: u64) -> Result<()> {
    let pieces = commands.len().div_ceil(PIECE).max(1);
    let mut lines = JournalLines::new(commands, newest);
    for _ in 0..pieces {
        let piece = lines.next_piece(rt.alloc())?;
        print!(rt; "{piece}")?;
    }
    Ok(())
}

/// Prints the office's answer.
fn print_as_office(rt: &HostRuntime, answer: Answer) -> Result<()> {
    match print_answer(&mut rt.stdout(), answer) {
        Ok(()) => Ok(()),
        Err(_) => Err(Error::from(ErrorKind::Other)),
    }
}

/// Prints why a ledger refuses.
pub(crate) fn print_refusal(rt: &HostRuntime, fault: RegisterFault) -> Result<()> {
    print_as_office(rt, Answer::Refused(fault))
}

/// Prints what a ledger would answer to a command.
fn print_check<L: Ledger>(rt: &HostRuntime, ledger: &mut L, command: &Command) -> Result<()> {
    match ledger.check(command) {
        Ok(revision) => println!(rt; "would be {revision}"),
        Err(fault) => print_refusal(rt, fault),
    }
}

/// Prints what a ledger would answer to a line.
pub(crate) fn check_line<L: Ledger>(rt: &HostRuntime, ledger: &mut L, line: &[u8]) -> Result<()> {
    match read_command(rt.alloc(), line) {
        Ok(command) => {
            let printed = print_check(rt, ledger, &command);
            drop(command);
            printed
        }
        Err(CommandError::NotACommand) => print_as_office(rt, Answer::NotACommand),
        Err(CommandError::Memory) => Err(Error::from(ErrorKind::OutOfMemory)),
    }
}

/// Prints the journal after a revision, or the register's refusal.
fn print_journal(rt: &HostRuntime, register: &mut Register<MemStore>, behind: u64) -> Result<()> {
    match register.journal(behind) {
        Ok(commands) => print_commands(rt, commands, register.revision()),
        Err(fault) => print_refusal(rt, fault),
    }
}

/// Prints the chain of all commands.
pub(crate) fn print_chain(rt: &HostRuntime, commands: Vec<Command>) -> Result<()> {
    let chain = chain_of(rt.alloc(), &commands)?;
    let digits = encode(rt.alloc(), chain.digest().as_slice())?;
    println!(rt; "chain {digits}")
}

/// Prints the chain of all commands of a register, or its refusal.
fn print_chain_of(rt: &HostRuntime, register: &mut Register<MemStore>) -> Result<()> {
    match register.journal(0) {
        Ok(commands) => print_chain(rt, commands),
        Err(fault) => print_refusal(rt, fault),
    }
}

/// Prints the journal of which all rows were read.
fn print_read(rt: &HostRuntime, reading: JournalReading) -> Result<()>
    requires { IsTrue (is_whole reading) }
{
    let newest = reading.newest();
    match reading.commands() {
        Ok(commands) => print_commands(rt, commands, newest),
        Err(fault) => Err(error_of(fault)),
    }
}

/// Enters a line, and prints its answer.
pub(crate) fn enter_line<L: Ledger>(rt: &HostRuntime, ledger: &mut L, line: &[u8]) -> Result<()> {
    let mut reader = Counted::new(Cursor::new(line));
    match office(rt.alloc(), &mut reader, &mut rt.stdout(), ledger) {
        Ok(_) => Ok(()),
        Err(_) => Err(Error::from(ErrorKind::Other)),
    }
}

/// What a line asks for.
pub(crate) enum Line<'a> {
    /// What would be answered to this line.
    Check(&'a [u8]),
    /// The chain of all commands.
    Chain,
    /// The journal after a revision.
    Journal(u64),
    /// To begin to read it.
    Begin(u64),
    /// To read at most this many rows.
    Read(u32),
    /// A command, or nothing.
    Office,
}

/// The number after a word and a blank.
fn number_after(line: &[u8], word: &[u8]) -> Option<u64> {
    let digits = line.strip_prefix(word)?;
    number(digits)
}

/// What the line asks for.
pub(crate) fn line_of(line: &[u8]) -> Line<'_> {
    if let Some(checked) = line.strip_prefix(b"check ".as_slice()) {
        return Line::Check(checked);
    }
    if line == b"chain".as_slice() {
        return Line::Chain;
    }
    if let Some(behind) = number_after(line, b"journal ") {
        return Line::Journal(behind);
    }
    if let Some(behind) = number_after(line, b"begin ") {
        return Line::Begin(behind);
    }
    match number_after(line, b"read ") {
        Some(most) => Line::Read(u32::try_from(most).unwrap_or(u32::MAX)),
        None => Line::Office,
    }
}

/// The register, and the journal that is read in pieces, if one was begun.
#[derive(Drop)]
struct Journals {
    register: Register<MemStore>,
    reading: Option<JournalReading>,
}

impl Journals {
    /// Begins to read a journal, in the place of any other one.
    fn begin(&mut self, rt: &HostRuntime, behind: u64) -> Result<()> {
        match self.register.begin_journal(behind) {
            Ok(reading) => {
                println!(rt; "begun {}", reading.newest())?;
                self.reading = Some(reading);
                Ok(())
            }
            Err(fault) => print_refusal(rt, fault),
        }
    }

    /// Reads the next rows, and prints the journal if these were the last.
    fn read_on(&mut self, rt: &HostRuntime, most: u32) -> Result<()> {
        let Some(mut reading) = self.reading.take() else {
            return println!(rt; "no journal");
        };
        match self.register.read_on(&mut reading, most) {
            Ok(true) => print_read(rt, reading),
            Ok(false) => {
                self.reading = Some(reading);
                println!(rt; "more")
            }
            Err(fault) => Err(error_of(fault)),
        }
    }

    /// Prints the answer to a line.
    fn answer(&mut self, rt: &HostRuntime, line: &[u8]) -> Result<()> {
        match line_of(line) {
            Line::Check(checked) => check_line(rt, &mut self.register, checked),
            Line::Chain => print_chain_of(rt, &mut self.register),
            Line::Journal(behind) => print_journal(rt, &mut self.register, behind),
            Line::Begin(behind) => self.begin(rt, behind),
            Line::Read(most) => self.read_on(rt, most),
            Line::Office => enter_line(rt, &mut self.register, line),
        }
    }
}

/// Enters the lines into a register of their own, and prints the journals that lines between them request.
pub(crate) fn print_answers(rt: &HostRuntime, lines: &[u8]) -> Result<()> {
    let mut journals = Journals {
        register: empty_register(rt.alloc())?,
        reading: None,
    };
    for line in lines.split(|byte| *byte == b'\n') {
        journals.answer(rt, line)?;
    }
    Ok(())
}
