//! The land office, and one connection served, over a register file.

ghost use Rattle.std.specs.Io.KnownBytes.{IsAtEnd};
ghost use Rattle.std.specs.Prelude.{◌≡◌, IfOk, IfErr};
ghost use Rattle.sqlite.specs.WalFiles.{image_at};
ghost use Rattle.cad_register.specs.Images.{IsOpeningFault, IsFindingFault};
ghost use Rattle.cad_register.specs.Opening.{Opened, OpenedOrCreated};
ghost use Rattle.cad_register.specs.Running.{RunsOver};
ghost use Rattle.cadastre_run.specs.FileAsking.{AsksOver, AsksInFile};
ghost use Rattle.cadastre_run.specs.FileEntering.{EntersOver, EntersInFile};
ghost use Rattle.cadastre_run.specs.FileRuns.{outcome_of_run};

use crate::entering::enter_commands;
use crate::outcome::Outcome;
use crate::serving::answer_over;
use cad_io::{CountedRead, CountedWrite};
use cad_register::{Register, RegisterFault, open_file, open_standing_file};
use sqlite::{Alter, Connection, FileFrom, FileStore, Start};
use std::alloc::Global;
use std::io::Write;

/// A run over a file: how it ended and the file's database, to be closed, or why the file was not opened.
pub type Ran<S> = Result<(Outcome, Connection<FileStore<FileFrom<S>>>), RegisterFault>;

/// Enters the commands of the lines into the register of a database, which is made if it does not exist, and gives the connection back.
fn enter_over<S: Alter, R: CountedRead, W: Write>(
    alloc: Global,
    connection: Connection<S>,
    reader: &mut R,
    writer: &mut W,
) -> (Outcome, Connection<S>)
    ensures { RunsOver (OpenedOrCreated S.Store) (EntersOver S.Store (R.remaining reader.old) (R.remaining reader.new)
        (W.contents writer.old) (W.contents writer.new) (IsAtEnd (R.remaining reader.new))) connection result }
{
    match Register::open_or_create(alloc, connection) {
        Ok(mut register) => {
            let outcome = enter_commands(alloc, reader, writer, &mut register);
            (outcome, register.release())
        }
        Err((fault, connection)) => (Outcome::Register(fault), connection),
    }
}

/// Enters the commands of the lines into the register of a file, which at first held what `start` says, and prints the answers.
pub fn run_office<S: Start, R: CountedRead, W: Write>(
    rt: &HostRuntime,
    file: &str,
    start: S,
    reader: &mut R,
    writer: &mut W,
) -> Ran<S>
    ensures ran { IfOk result (EntersInFile (image_at S.Start) (R.remaining reader.old) (R.remaining reader.new)
        (W.contents writer.old) (W.contents writer.new) (IsAtEnd (R.remaining reader.new))) }
    ensures unopened { IfErr result (λ fault. IsOpeningFault fault × (reader.new ≡ reader.old) × (writer.new ≡ writer.old)) }
{
    let connection = open_file(rt, file, start)?;
    Ok(enter_over(rt.alloc(), connection, reader, writer))
}

/// Serves a connection over the register of a database, and gives the database's connection back.
fn ask_over<S: Alter, R: CountedRead, W: CountedWrite>(
    alloc: Global,
    connection: Connection<S>,
    reader: &mut R,
    writer: &mut W,
) -> (Outcome, Connection<S>)
    ensures { RunsOver (Opened S.Store) (AsksOver S.Store (R.remaining reader.old) (R.remaining reader.new)
        (W.contents writer.old) (W.contents writer.new) (IsAtEnd (R.remaining reader.new))) connection result }
{
    match Register::open(alloc, connection) {
        Ok(register) => {
            let (outcome, register) = answer_over(alloc, register, reader, writer);
            (outcome, register.release())
        }
        Err((why, connection)) => (Outcome::Register(why), connection),
    }
}

/// Serves a connection over the register of a file, which at first held what `start` says.
pub fn run_ask<S: Start, R: CountedRead, W: CountedWrite>(
    rt: &HostRuntime,
    file: &str,
    start: S,
    reader: &mut R,
    writer: &mut W,
) -> Ran<S>
    ensures ran { IfOk result (AsksInFile (image_at S.Start) (R.remaining reader.old) (R.remaining reader.new)
        (W.contents writer.old) (W.contents writer.new) (IsAtEnd (R.remaining reader.new))) }
    ensures unopened { IfErr result (λ fault. IsFindingFault fault × (reader.new ≡ reader.old) × (writer.new ≡ writer.old)) }
{
    let connection = open_standing_file(rt, file, start)?;
    Ok(ask_over(rt.alloc(), connection, reader, writer))
}

/// How a run over a file ended. Its database is closed.
pub fn close<S: Start>(ran: Ran<S>) -> Outcome
    ensures { result ≡ outcome_of_run ran }
{
    match ran {
        Ok((outcome, connection)) => {
            // If closing fails to copy what was accepted into the file, the log still holds it.
            let _ = connection.close();
            outcome
        }
        Err(fault) => Outcome::Register(fault),
    }
}
