//! Clients and the land office, served over a ledger.

ghost use Rattle.std.specs.Prelude.{IfOk};
ghost use Rattle.std.specs.Net.Grammar.{IsSocketText};
ghost use Rattle.cadastred_run.specs.Doors.{address_requested};
ghost use Rattle.cadastred_run.specs.Hosting.{EndsHosting, HostsOver};

use crate::chaining::chained_server;
use crate::doors::{DoorFault, Doors};
use crate::invocation::Service;
use crate::outcome::Outcome;
use cad_clients::AccessLog;
use cad_desk::Desk;
use cad_event_loop::host;
use cad_network::Network;
use cad_serve::{bound_for, read_address, tell_address};
use cad_server::WorkMeter;
use cad_stream::{JournalResponder, WorkingResponder};
use cad_versions::{HistoryLedger, JournalLedger};
use std::alloc::Global;
use std::fs::Files;
use std::io::{Result as IoResult, Write};
use std::net::{Net, SocketAddr};

/// The sockets of a service, or how a run ends without them.
pub fn open_doors<N: Net + Files>(rt: &N, service: Service<'_>) -> Result<Doors, Outcome>
    ensures { IfOk result (λ doors. IsSocketText service.entry.address.now (address_requested doors)) }
{
    let Some(address) = read_address(service.address) else {
        return Err(Outcome::Address);
    };
    match Doors::open(rt, address, service.office) {
        Ok(doors) => Ok(doors),
        Err(DoorFault::Address) => Err(Outcome::Address),
        Err(DoorFault::Office) => Err(Outcome::Office),
    }
}

/// Writes the address, if the address that is found is the requested one, and serves the desk at the network.
fn host_desk<N: Network, R: JournalResponder + WorkingResponder, W: Write, A: AccessLog<N::Socket>>(
    alloc: Global,
    asked: SocketAddr,
    found: IoResult<SocketAddr>,
    net: &mut N,
    writer: &mut W,
    log: &mut A,
    meter: &mut R::Meter,
    desk: &mut Desk<R>,
) -> Outcome
    ensures { EndsHosting asked (W.contents writer.old) (W.contents writer.new) (N.history net.old) (N.history net.new) R.Responder R.JournalResponder.own R.owes desk.old result desk.new }
{
    let Some(bound) = bound_for(asked, found) else {
        return Outcome::Address;
    };
    match tell_address(writer, bound) {
        Ok(()) => Outcome::of_hosting(host(alloc, net, desk, meter, log)),
        Err(_) => Outcome::Failed,
    }
}

/// Reads what the ledger stores, and the chain of its commands if `chains`. Writes the address, if the address that is found is the requested
/// one. Takes clients and the land office at the doors of a network, serves them over the ledger until the office asks to stop, and gives the
/// ledger back.
pub fn host_over<N: Network, L: HistoryLedger + JournalLedger, W: Write, A: AccessLog<N::Socket>>(
    alloc: Global,
    ledger: L,
    chains: bool,
    asked: SocketAddr,
    found: IoResult<SocketAddr>,
    net: &mut N,
    writer: &mut W,
    log: &mut A,
) -> (Outcome, L)
    ensures { HostsOver asked (W.contents writer.old) (W.contents writer.new) (N.history net.old) (N.history net.new) L.Ledger L.JournalLedger.own ledger result }
{
    match chained_server(alloc, ledger, chains) {
        Ok(server) => {
            let mut desk = Desk::new(alloc, server);
            let mut meter = WorkMeter::default();
            let outcome = host_desk(alloc, asked, found, net, writer, log, &mut meter, &mut desk);
            (outcome, desk.release().release())
        }
        Err((fault, ledger)) => (Outcome::Register(fault), ledger),
    }
}
