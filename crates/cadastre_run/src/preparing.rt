//! A server that has read what its ledger stores, unless a row is damaged.

ghost use Rattle.std.specs.Prelude.{◌≡◌};
ghost use Rattle.cadastre_run.specs.Preparing.{OpensServer};
ghost use Rattle.cad_server.specs.Servers.{is_damage as names_damage};

use cad_server::Server;
use cad_versions::{HistoryLedger, RegisterFault};
use std::alloc::Global;

/// Whether the fault names a damaged row.
fn is_damage(fault: &RegisterFault) -> bool
    ensures { result ≡ names_damage fault.now }
{
    matches!(fault, RegisterFault::Damaged { .. })
}

/// A server over the ledger that has read all that the ledger stores, so that no client waits for it, and true. If a row is damaged, it has
/// not, so it refuses requests for features of the revisions that have the row, and answers all others: false. Otherwise the fault, and the
/// ledger back.
pub fn prepared_server<L: HistoryLedger>(
    alloc: Global,
    ledger: L,
) -> Result<(Server<L>, bool), (RegisterFault, L)>
    ensures { OpensServer L.Ledger ledger result }
{
    let mut server = match Server::new(alloc, ledger) {
        Ok(server) => server,
        Err(ledger) => return Err((RegisterFault::Memory, ledger)),
    };
    match server.prepare() {
        Ok(()) => Ok((server, true)),
        Err(fault) if is_damage(&fault) => Ok((server, false)),
        Err(fault) => Err((fault, server.release())),
    }
}
