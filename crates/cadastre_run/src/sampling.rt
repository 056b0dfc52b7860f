//! The server over the sample register, which is in a database in memory.

ghost use Rattle.std.specs.Io.KnownBytes.{IsAtEnd};
ghost use Rattle.cad_register.specs.Opening.{Created};
ghost use Rattle.cad_register.specs.Running.{RunsOver};
ghost use Rattle.cadastre_run.specs.Sampling.{SamplesOver, RunsSample};

use crate::outcome::Outcome;
use crate::serving::answer_sample;
use cad_io::{CountedRead, CountedWrite};
use cad_register::{Register, RegisterFault};
use sqlite::{Alter, Connection};
use std::alloc::Global;

/// Serves a connection over the sample register, which is made in the database and entered first, and gives the database's connection back.
fn sample_over<S: Alter, R: CountedRead, W: CountedWrite>(
    alloc: Global,
    connection: Connection<S>,
    reader: &mut R,
    writer: &mut W,
) -> (Outcome, Connection<S>)
    ensures { RunsOver (Created S.Store) (SamplesOver S.Store (R.remaining reader.old) (R.remaining reader.new)
        (W.contents writer.old) (W.contents writer.new) (IsAtEnd (R.remaining reader.new))) connection result }
{
    match Register::create(alloc, connection) {
        Ok(register) => {
            let (outcome, register) = answer_sample(alloc, register, reader, writer);
            (outcome, register.release())
        }
        Err((why, connection)) => (Outcome::Register(why), connection),
    }
}

/// Serves a connection over the sample register.
pub fn run_sample<R: CountedRead, W: CountedWrite>(
    alloc: Global,
    reader: &mut R,
    writer: &mut W,
) -> Outcome
    ensures { RunsSample (R.remaining reader.old) (R.remaining reader.new)
        (W.contents writer.old) (W.contents writer.new) (IsAtEnd (R.remaining reader.new)) result }
{
    let Ok(connection) = Connection::open_in_memory(alloc) else {
        return Outcome::Register(RegisterFault::Memory);
    };
    let (outcome, _) = sample_over(alloc, connection, reader, writer);
    outcome
}
