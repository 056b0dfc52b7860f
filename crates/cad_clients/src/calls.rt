//! What a turn asks of the desk and sends to the peer for a fault.

ghost use Rattle.std.specs.Prelude.{◌≡◌};
ghost use Rattle.cad_network.specs.Deeds.{AddsSome};
ghost use Rattle.cad_clients.specs.Channels.{Closes, SendsFault};

use crate::turned::{Ending, Turned};
use cad_desk::{Desk, DeskFault};
use cad_network::Network;
use cad_serve::fixed_head;
use cad_stream::Responder;

/// Closes the connection at the desk.
pub(crate) fn close<R: Responder>(desk: &mut Desk<R>, c: u32)
    ensures { Closes R.Responder c desk.old desk.new }
{
    let _ = desk.close(c);
}

/// Sends the head that reports the fault to a socket, as far as one write takes it.
pub fn tell_fault<N: Network>(net: &mut N, socket: &N::Socket, fault: DeskFault)
    ensures { AddsSome (N.history net.old) (N.history net.new) (SendsFault (N.name socket.now) fault) }
{
    let _ = net.write(socket, fixed_head(fault).as_bytes());
}

/// Sends the head that reports the fault. If it cannot be written now, the result is the fault all the same.
pub(crate) fn refuse<N: Network>(net: &mut N, socket: &N::Socket, fault: DeskFault) -> Turned
    ensures refused { result ≡ Turned.Over (Ending.Refused fault) }
    ensures head { AddsSome (N.history net.old) (N.history net.new) (SendsFault (N.name socket.now) fault) }
{
    tell_fault(net, socket, fault);
    Turned::Over(Ending::Refused(fault))
}

/// The connection is over, since there is no memory to make the reply that is next. This is reported.
pub(crate) fn give_up<N: Network, R: Responder>(
    c: u32,
    net: &mut N,
    socket: &N::Socket,
    desk: &mut Desk<R>,
) -> Turned
    ensures over { result ≡ Turned.Over Ending.Unmade }
    ensures closed { Closes R.Responder c desk.old desk.new }
    ensures head { AddsSome (N.history net.old) (N.history net.new) (SendsFault (N.name socket.now) DeskFault.Memory) }
{
    close(desk, c);
    tell_fault(net, socket, DeskFault::Memory);
    Turned::Over(Ending::Unmade)
}
