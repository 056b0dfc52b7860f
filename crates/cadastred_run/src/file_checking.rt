//! Checks lines of the land office on a copy of a file's register.

ghost use Rattle.std.specs.Io.KnownBytes.{IsAtEnd};
ghost use Rattle.std.specs.Prelude.{◌≡◌, [], IfOk, IfErr};
ghost use Rattle.sqlite.specs.Steps.{over_memory};
ghost use Rattle.sqlite.specs.WalFiles.{image_at};
ghost use Rattle.cad_versions.specs.Refusals.{AreAccepted};
ghost use Rattle.cad_register.specs.Opening.{Opened};
ghost use Rattle.cad_register.specs.Registers.{IsRegisterOf};
ghost use Rattle.cad_register.specs.Running.{RunsOver};
ghost use Rattle.cad_register.specs.Stands.{IsStoreFault};
ghost use Rattle.cadastred_run.specs.FileChecking.{ChecksAfter, ChecksFound, ChecksInFile, ChecksRegister, IsCheckEnd};
ghost use Rattle.cadastred_run.specs.Reading.{IsUnfound};

use crate::checking::check_over;
use crate::file_hosting::Ran;
use crate::outcome::Outcome;
use cad_io::CountedRead;
use cad_register::{Command, Register, RegisterFault, open_standing_file};
use sqlite::{Alter, Connection, MemStore, Start};
use std::alloc::Global;
use std::io::Write;

/// The register of no commands, in memory.
fn empty_register(alloc: Global) -> Result<Register<MemStore>, RegisterFault>
    ensures empty { IfOk result (λ register. IsRegisterOf over_memory register []) }
    ensures cause { IfErr result IsStoreFault }
{
    let Ok(connection) = Connection::open_in_memory(alloc) else {
        return Err(RegisterFault::Memory);
    };
    match Register::create(alloc, connection) {
        Ok(register) => Ok(register),
        Err((fault, _)) => Err(fault),
    }
}

/// Checks lines on a register in memory, into which the commands of a journal are entered first.
fn check_commands<R: CountedRead, W: Write>(
    alloc: Global,
    journal: Vec<Command>,
    reader: &mut R,
    writer: &mut W,
) -> Outcome
    ensures ends { IsCheckEnd result }
    ensures checked { AreAccepted [] journal.items → ChecksAfter (R.remaining reader.old) (R.remaining reader.new)
        (W.contents writer.old) (W.contents writer.new) (IsAtEnd (R.remaining reader.new)) journal.items result }
{
    match empty_register(alloc) {
        Ok(mut copy) => check_over(alloc, journal, reader, writer, &mut copy),
        Err(fault) => Outcome::Register(fault),
    }
}

/// Checks lines on a copy of a register.
fn check_register<S: Alter, R: CountedRead, W: Write>(
    alloc: Global,
    register: &mut Register<S>,
    reader: &mut R,
    writer: &mut W,
) -> Outcome
    ensures { ChecksRegister (R.remaining reader.old) (R.remaining reader.new)
        (W.contents writer.old) (W.contents writer.new) (IsAtEnd (R.remaining reader.new)) S.Store register.old register.new result }
{
    match register.journal(0) {
        Ok(journal) => check_commands(alloc, journal, reader, writer),
        Err(fault) => Outcome::Register(fault),
    }
}

/// Checks lines on a copy of a database's register, and returns the database's connection.
fn check_found<S: Alter, R: CountedRead, W: Write>(
    alloc: Global,
    connection: Connection<S>,
    reader: &mut R,
    writer: &mut W,
) -> (Outcome, Connection<S>)
    ensures { RunsOver (Opened S.Store) (ChecksFound (R.remaining reader.old) (R.remaining reader.new)
        (W.contents writer.old) (W.contents writer.new) (IsAtEnd (R.remaining reader.new)) S.Store) connection result }
{
    match Register::open(alloc, connection) {
        Ok(mut register) => {
            let outcome = check_register(alloc, &mut register, reader, writer);
            (outcome, register.release())
        }
        Err((fault, connection)) => (Outcome::Register(fault), connection),
    }
}

/// Writes for each line what the register of a file, which held this at first, would answer to it after the lines before it. No command is
/// entered there, and no file is made.
pub fn run_check<S: Start, R: CountedRead, W: Write>(
    rt: &HostRuntime,
    file: &str,
    start: S,
    reader: &mut R,
    writer: &mut W,
) -> Ran<S>
    ensures checked { IfOk result (ChecksInFile (R.remaining reader.old) (R.remaining reader.new)
        (W.contents writer.old) (W.contents writer.new) (IsAtEnd (R.remaining reader.new)) (image_at S.Start)) }
    ensures unfound { IfErr result (λ outcome. IsUnfound outcome × (reader.new ≡ reader.old) × (writer.new ≡ writer.old)) }
{
    match open_standing_file(rt, file, start) {
        Ok(connection) => Ok(check_found(rt.alloc(), connection, reader, writer)),
        Err(fault) => Err(Outcome::Register(fault)),
    }
}
