//! Connections taken at an address, and served over a ledger.

ghost use Rattle.cadastre_run.specs.Listening.{EndsListening, ListensOver};

use crate::command::Service;
use crate::outcome::Outcome;
use crate::preparing::prepared_server;
use cad_desk::Desk;
use cad_serve::{bound_for, listen, read_address, tell_address};
use cad_stream::Responder;
use cad_versions::HistoryLedger;
use std::alloc::Global;
use std::io::Write;
use std::net::{Net, TcpListener, TcpStream};

/// Reports the address that is bound, listens there for the desk's connections, and gives the outcome of the run.
pub fn listen_at<
    N: Net<Listener = TcpListener, Stream = TcpStream>,
    P: Responder,
    W: Write,
    E: Write,
>(
    net: &N,
    alloc: Global,
    service: Service<'_>,
    writer: &mut W,
    errors: &mut E,
    desk: &mut Desk<P>,
) -> Outcome
    ensures { EndsListening service.entry (W.contents writer.old) (W.contents writer.new)
        (E.contents errors.old) (E.contents errors.new) P.Responder desk.old result desk.new }
{
    let Some(command_line_read) = read_address(service.address) else {
        return Outcome::Address;
    };
    let Ok(listener) = TcpListener::bind(net, command_line_read) else {
        return Outcome::Address;
    };
    let Some(bound) = bound_for(command_line_read, listener.local_addr()) else {
        return Outcome::Address;
    };
    match tell_address(writer, bound) {
        Ok(()) => Outcome::Listened(listen(alloc, &listener, errors, service.count, desk)),
        Err(fault) => Outcome::Serve(fault),
    }
}

/// Reads what the ledger stores, listens for connections over the ledger, and gives the ledger back.
pub fn listen_over<
    N: Net<Listener = TcpListener, Stream = TcpStream>,
    L: HistoryLedger,
    W: Write,
    E: Write,
>(
    net: &N,
    alloc: Global,
    ledger: L,
    service: Service<'_>,
    writer: &mut W,
    errors: &mut E,
) -> (Outcome, L)
    ensures { ListensOver service.entry (W.contents writer.old) (W.contents writer.new)
        (E.contents errors.old) (E.contents errors.new) L.Ledger ledger result }
{
    match prepared_server(alloc, ledger) {
        Ok((server, _)) => {
            let mut desk = Desk::new(alloc, server);
            let outcome = listen_at(net, alloc, service, writer, errors, &mut desk);
            (outcome, desk.release().release())
        }
        Err((fault, ledger)) => (Outcome::Register(fault), ledger),
    }
}
