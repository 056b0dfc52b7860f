//! A desk over a register.

use cad_desk::{DeskFault, Event, Reply};
use cad_server::Server;
use cad_stream::Responder;
use cad_versions::HistoryLedger;
use std::alloc::Global;

/// Many connections and one land office over a register. Here a register is any ledger of commands that gives its stored versions.
pub struct Desk<L: HistoryLedger> {
    /// The connections, with the server that answers their requests: `serve` and `listen` are called on these.
    pub connections: cad_desk::Desk<Server<L>>,
}

impl<L: HistoryLedger + Drop> Drop for Desk<L> {
    fn drop(self) {
        let Desk { connections: _ } = self;
    }
}

impl<L: HistoryLedger> Desk<L> {
    ghost use Rattle.std.specs.Prelude.{◌≡◌, List, IfOk, IfErr};
    ghost use Rattle.cad_versions.specs.declared.command.Command.{Command as CommandOf};
    ghost use Rattle.cad_desk.specs.Desks.{responder_of, Steps};
    ghost use Rattle.cad_http.specs.Desks.{server_desk, register_of, IsDeskOf, IsIdle};

    /// A desk without connections over the register, or the register back if there is no memory.
    pub fn new(alloc: Global, register: L) -> Result<Desk<L>, L>
        ensures made { IfOk result (λ desk. (commands : List CommandOf) → L.Ledger.stands_for register commands →
            IsDeskOf L.Ledger desk commands) }
        ensures same { IfOk result (λ desk. register_of desk ≡ register) }
        ensures idle { IfOk result IsIdle }
        ensures back { IfErr result (λ back. back ≡ register) }
    {
        let server = Server::new(alloc, register)?;
        Ok(Desk::over(alloc, server))
    }

    /// A desk without connections over an existing server.
    pub fn over(alloc: Global, server: Server<L>) -> Desk<L>
        ensures server { responder_of (server_desk result) ≡ server }
        ensures idle { IsIdle result }
    {
        Desk {
            connections: cad_desk::Desk::new(alloc, server),
        }
    }

    /// Takes an event, and answers it completely. Bytes that are refused close their connection; everything else stays as it was.
    pub fn step(&mut self, event: Event) -> Result<Reply, DeskFault>
        ensures { Steps ⟦<Server<L> as Responder>⟧ (server_desk self.old) event result (server_desk self.new) }
    {
        self.connections.step(event)
    }

    /// The register. All connections are dropped, and no memory is allocated.
    pub fn release(self) -> L
        ensures { result ≡ register_of self }
    {
        let Desk { connections } = self;
        connections.release().release()
    }
}
