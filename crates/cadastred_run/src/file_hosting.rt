//! Serves clients and the land office over a register file.

ghost use Rattle.std.specs.Prelude.{◌≡◌, IfOk, IfErr};
ghost use Rattle.sqlite.specs.WalFiles.{image_at};
ghost use Rattle.cad_register.specs.Opening.{OpenedOrCreated};
ghost use Rattle.cad_register.specs.Running.{RunsOver};
ghost use Rattle.cadastred_run.specs.Doors.{address_requested};
ghost use Rattle.cadastred_run.specs.FileHosting.{HostsRegister, HostsFound, HostsOpened, HostsInFile, Serves, EndsUnopened, outcome_of_run};

use crate::doors::{Doors, remove_door};
use crate::hosting::{host_over, open_doors};
use crate::invocation::Service;
use crate::log::Log;
use crate::outcome::Outcome;
use cad_clients::AccessLog;
use cad_event_loop::laws::ledger_stands;
use cad_network::Network;
use cad_register::{Register, open_file};
use cad_server::Server;
use sqlite::{Alter, Connection, FileFrom, FileStore, Start};
use std::alloc::Global;
use std::io::{Result as IoResult, Write};
use std::net::SocketAddr;

/// A run over a file: how it ended and the file's open database, or how it ended without one.
pub type Ran<S> = Result<(Outcome, Connection<FileStore<FileFrom<S>>>), Outcome>;

/// Hosts a register, with the chain of its commands if `chains`, and returns the connection of its database.
fn host_register<N: Network, S: Alter, W: Write, A: AccessLog<N::Socket>>(
    alloc: Global,
    register: Register<S>,
    chains: bool,
    asked: SocketAddr,
    found: IoResult<SocketAddr>,
    net: &mut N,
    writer: &mut W,
    log: &mut A,
) -> (Outcome, Connection<S>)
    ensures { HostsRegister asked (W.contents writer.old) (W.contents writer.new) (N.history net.old) (N.history net.new) S.Store register result }
{
    ledger_stands::<Server<Register<S>>>();
    let (outcome, left) = host_over(alloc, register, chains, asked, found, net, writer, log);
    (outcome, left.release())
}

/// Hosts the register of a database, and makes one if it has none. Returns the database's connection.
fn host_found<N: Network, S: Alter, W: Write, A: AccessLog<N::Socket>>(
    alloc: Global,
    connection: Connection<S>,
    chains: bool,
    asked: SocketAddr,
    found: IoResult<SocketAddr>,
    net: &mut N,
    writer: &mut W,
    log: &mut A,
) -> (Outcome, Connection<S>)
    ensures { RunsOver (OpenedOrCreated S.Store) (HostsFound asked (W.contents writer.old) (W.contents writer.new)
        (N.history net.old) (N.history net.new) (log.new ≡ log.old) S.Store) connection result }
{
    match Register::open_or_create(alloc, connection) {
        Ok(register) => host_register(alloc, register, chains, asked, found, net, writer, log),
        Err((fault, connection)) => (Outcome::Register(fault), connection),
    }
}

/// Hosts the register of a file, which held this at first, at a network.
fn host_opened<N: Network, S: Start, W: Write, A: AccessLog<N::Socket>>(
    rt: &HostRuntime,
    service: Service<'_>,
    asked: SocketAddr,
    found: IoResult<SocketAddr>,
    start: S,
    net: &mut N,
    writer: &mut W,
    log: &mut A,
) -> Ran<S>
    ensures hosted { IfOk result (HostsOpened asked (W.contents writer.old) (W.contents writer.new) (N.history net.old) (N.history net.new) (log.new ≡ log.old) (image_at S.Start)) }
    ensures unhosted { IfErr result (λ outcome. EndsUnopened outcome × (writer.new ≡ writer.old)) }
{
    let connection = match open_file(rt, service.file, start) {
        Ok(connection) => connection,
        Err(fault) => return Err(Outcome::Register(fault)),
    };
    Ok(host_found(
        rt.alloc(),
        connection,
        service.chains,
        asked,
        found,
        net,
        writer,
        log,
    ))
}

/// Hosts the register of a file, which held this at first, at the sockets. If a log of access is requested, it goes to standard error.
fn host_file<S: Start, W: Write>(
    rt: &HostRuntime,
    service: Service<'_>,
    doors: Doors,
    start: S,
    writer: &mut W,
) -> Ran<S>
    ensures hosted { IfOk result (HostsInFile (W.contents writer.old) (W.contents writer.new) (image_at S.Start) (address_requested doors)) }
    ensures unhosted { IfErr result (λ outcome. EndsUnopened outcome × (writer.new ≡ writer.old)) }
{
    let errors = if service.logs {
        Some(rt.stderr())
    } else {
        None
    };
    let Ok(mut log) = Log::new(rt, rt.alloc(), errors) else {
        return Err(Outcome::Failed);
    };
    let (asked, found) = (doors.requested(), doors.address());
    let Ok(mut net) = doors.into_network(rt, rt.alloc()) else {
        return Err(Outcome::Failed);
    };
    host_opened(rt, service, asked, found, start, &mut net, writer, &mut log)
}

/// Serves the register of a file, which held this at first, to clients, and takes the land office's lines, until the office sends
/// `stop`. It writes the address to the writer.
pub fn run_service<S: Start, W: Write>(
    rt: &HostRuntime,
    service: Service<'_>,
    start: S,
    writer: &mut W,
) -> Ran<S>
    ensures served { IfOk result (Serves (W.contents writer.old) (W.contents writer.new) (image_at S.Start) service.entry) }
    ensures unserved { IfErr result (λ outcome. EndsUnopened outcome × (writer.new ≡ writer.old)) }
{
    let doors = match open_doors(rt, service) {
        Ok(doors) => doors,
        Err(Outcome::Office) => return Err(Outcome::Office),
        Err(_) => return Err(Outcome::Address),
    };
    let ran = host_file(rt, service, doors, start, writer);
    remove_door(rt, service.office);
    ran
}

/// How a run over a file ended. Its database is closed.
pub fn close<S: Start>(ran: Ran<S>) -> Outcome
    ensures { result ≡ outcome_of_run ran }
{
    match ran {
        Ok((outcome, connection)) => {
            // If closing fails to copy the database's log into the file, the log still holds every accepted command.
            let _ = connection.close();
            outcome
        }
        Err(outcome) => outcome,
    }
}
