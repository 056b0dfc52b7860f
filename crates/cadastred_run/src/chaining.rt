//! A server that keeps the chain of its commands.

ghost use Rattle.cadastred_run.specs.Chaining.{OpensChained};

use cad_server::Server;
use cad_versions::{HistoryLedger, JournalLedger, RegisterFault};
use cadastre_run::prepared_server;
use std::alloc::Global;

/// A server over the ledger, as `prepared_server` makes it, that keeps the chain of its commands if `chains`; or the fault, and the ledger
/// back. If a row is damaged, it keeps no chain.
pub(crate) fn chained_server<L: HistoryLedger + JournalLedger>(
    alloc: Global,
    ledger: L,
    chains: bool,
) -> Result<Server<L>, (RegisterFault, L)>
    ensures { OpensChained L.Ledger L.JournalLedger.own chains ledger result }
{
    let (mut server, is_read) = match prepared_server(alloc, ledger) {
        Ok(started) => started,
        Err(refused) => return Err(refused),
    };
    if !chains || !is_read {
        return Ok(server);
    }
    match server.keep_chain() {
        Ok(()) => Ok(server),
        Err(fault) => Err((fault, server.release())),
    }
}
