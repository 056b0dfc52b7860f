//! Prints the journal of a register file.

ghost use Rattle.std.specs.Prelude.{◌≡◌, ◌++◌, IfOk, IfErr};
ghost use Rattle.sqlite.specs.WalFiles.{image_at};
ghost use Rattle.cad_office.specs.JournalLines.{line_of, lines_of, end_line};
ghost use Rattle.cad_register.specs.Opening.{Opened};
ghost use Rattle.cad_register.specs.Running.{RunsOver};
ghost use Rattle.cadastred_run.specs.FileJournal.{IsPrinted, PrintsFound, PrintsInFile, PrintsRegister};
ghost use Rattle.cadastred_run.specs.Reading.{IsUnfound};

use crate::file_hosting::Ran;
use crate::outcome::Outcome;
use cad_commands::write_command;
use cad_io::{WriteFailed, write_whole};
use cad_register::{Command, Register, open_standing_file};
use sqlite::{Alter, Connection, Start};
use std::alloc::{AllocError, Global};
use std::io::Write;

/// A journal was not written completely: out of memory, or a write failed.
#[derive(Clone, Copy, Debug, PartialEq, Eq)]
struct Unprinted;

impl From<AllocError> for Unprinted {
    fn from(_: AllocError) -> Unprinted {
        Unprinted
    }
}

impl From<WriteFailed> for Unprinted {
    fn from(_: WriteFailed) -> Unprinted {
        Unprinted
    }
}

/// Writes the line of a command.
fn print_command<W: Write>(
    alloc: Global,
    command: &Command,
    writer: &mut W,
) -> Result<(), Unprinted>
    ensures { IsPrinted (W.contents writer.old) (W.contents writer.new) (line_of command.now) result }
{
    let mut line = write_command(alloc, command)?;
    line.push_str("\n")?;
    write_whole(writer, line.as_bytes())?;
    Ok(())
}

/// Writes the lines of commands, one after the other.
fn print_commands<W: Write>(
    alloc: Global,
    commands: &[Command],
    writer: &mut W,
) -> Result<(), Unprinted>
    ensures { IsPrinted (W.contents writer.old) (W.contents writer.new) (lines_of commands.now) result }
{
    for command in commands {
        print_command(alloc, command, writer)?;
    }
    Ok(())
}

/// Writes the line after the last command.
fn print_end<W: Write>(alloc: Global, newest: u64, writer: &mut W) -> Result<(), Unprinted>
    ensures { IsPrinted (W.contents writer.old) (W.contents writer.new) (end_line newest) result }
{
    let mut line = String::new(alloc);
    writeln!(line, "end {newest}")?;
    write_whole(writer, line.as_bytes())?;
    Ok(())
}

/// Writes the lines of commands, and the line after the last one.
fn print_journal<W: Write>(
    alloc: Global,
    commands: &[Command],
    newest: u64,
    writer: &mut W,
) -> Result<(), Unprinted>
    ensures { IsPrinted (W.contents writer.old) (W.contents writer.new) (lines_of commands.now ++ end_line newest) result }
{
    print_commands(alloc, commands, writer)?;
    print_end(alloc, newest, writer)
}

/// Writes the journal of a register.
fn print_register<S: Alter, W: Write>(
    alloc: Global,
    register: &mut Register<S>,
    writer: &mut W,
) -> Outcome
    ensures { PrintsRegister (W.contents writer.old) (W.contents writer.new) S.Store register.old register.new result }
{
    let newest = register.revision();
    match register.journal(0) {
        Ok(commands) => match print_journal(alloc, &commands, newest, writer) {
            Ok(()) => Outcome::Good,
            Err(_) => Outcome::Failed,
        },
        Err(fault) => Outcome::Register(fault),
    }
}

/// Writes the journal of a database's register, and returns the database's connection.
fn print_found<S: Alter, W: Write>(
    alloc: Global,
    connection: Connection<S>,
    writer: &mut W,
) -> (Outcome, Connection<S>)
    ensures { RunsOver (Opened S.Store) (PrintsFound (W.contents writer.old) (W.contents writer.new) S.Store) connection result }
{
    match Register::open(alloc, connection) {
        Ok(mut register) => {
            let outcome = print_register(alloc, &mut register, writer);
            (outcome, register.release())
        }
        Err((fault, connection)) => (Outcome::Register(fault), connection),
    }
}

/// Writes the journal of the register of a file, which held this at first: the line of each command as the land office takes it, and then
/// the line `end N` with the newest revision. No file is made.
pub fn run_journal<S: Start, W: Write>(
    rt: &HostRuntime,
    file: &str,
    start: S,
    writer: &mut W,
) -> Ran<S>
    ensures printed { IfOk result (PrintsInFile (W.contents writer.old) (W.contents writer.new) (image_at S.Start)) }
    ensures unfound { IfErr result (λ outcome. IsUnfound outcome × (writer.new ≡ writer.old)) }
{
    match open_standing_file(rt, file, start) {
        Ok(connection) => Ok(print_found(rt.alloc(), connection, writer)),
        Err(fault) => Err(Outcome::Register(fault)),
    }
}
