//! Listening for connections over a register file.

ghost use Rattle.std.specs.Prelude.{◌≡◌, IfOk, IfErr};
ghost use Rattle.sqlite.specs.WalFiles.{image_at};
ghost use Rattle.cad_register.specs.Images.{IsFindingFault};
ghost use Rattle.cad_register.specs.Opening.{Opened};
ghost use Rattle.cad_register.specs.Running.{RunsOver};
ghost use Rattle.cadastre_run.specs.FileListening.{ServesFound, ServesInFile};

use crate::command::Service;
use crate::file_runs::Ran;
use crate::listening::listen_over;
use crate::outcome::Outcome;
use cad_register::{Register, open_standing_file};
use sqlite::{Alter, Connection, Start};
use std::alloc::Global;
use std::io::Write;
use std::net::{Net, TcpListener, TcpStream};

/// Listens for connections over the register of a database, and gives the database's connection back.
fn serve_over<N: Net<Listener = TcpListener, Stream = TcpStream>, S: Alter, W: Write, E: Write>(
    net: &N,
    alloc: Global,
    connection: Connection<S>,
    service: Service<'_>,
    writer: &mut W,
    errors: &mut E,
) -> (Outcome, Connection<S>)
    ensures { RunsOver (Opened S.Store) (ServesFound service.entry (W.contents writer.old) (W.contents writer.new)
        (E.contents errors.old) (E.contents errors.new) S.Store) connection result }
{
    match Register::open(alloc, connection) {
        Ok(register) => {
            let (outcome, register) = listen_over(net, alloc, register, service, writer, errors);
            (outcome, register.release())
        }
        Err((fault, connection)) => (Outcome::Register(fault), connection),
    }
}

/// Listens for connections over the register of a file, which at first held what `start` says. The address is reported on `writer`, and
/// what goes wrong with a connection on `errors`.
pub fn run_serve<S: Start, W: Write, E: Write>(
    rt: &HostRuntime,
    file: &str,
    start: S,
    service: Service<'_>,
    writer: &mut W,
    errors: &mut E,
) -> Ran<S>
    ensures ran { IfOk result (ServesInFile service.entry (W.contents writer.old) (W.contents writer.new)
        (E.contents errors.old) (E.contents errors.new) (image_at S.Start)) }
    ensures unopened { IfErr result (λ fault. IsFindingFault fault × (writer.new ≡ writer.old) × (errors.new ≡ errors.old)) }
{
    let connection = open_standing_file(rt, file, start)?;
    Ok(serve_over(rt, rt.alloc(), connection, service, writer, errors))
}
