//! What holds of every connection. The contract is a law; the function does nothing.

ghost use Rattle.cad_clients.specs.Laws.{ChannelsAreTheirOwn};

use cad_desk::laws::{connections_are_their_own, steps_are_a_run};
use cad_stream::WorkingResponder;

/// From its opening on, what was written to a connection, followed by what it holds to be written, are the replies to what was read from
/// it, as far as the desk took that. It does not matter what the other connections and the land office do.
pub fn channels_are_their_own<R: WorkingResponder>()
    ensures { ChannelsAreTheirOwn R.Responder R.owes }
{
    steps_are_a_run::<R>();
    connections_are_their_own::<R>();
}
