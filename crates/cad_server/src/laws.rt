//! What holds of all replies. The contract is a law; the function does nothing.

ghost use Rattle.cad_server.specs.Laws.{RequestsHaveOneReply};

use cad_ask::laws::{fault_or_asks, one_first_fault, pairs_ask_one_thing};
use cad_page::laws::the_same_is_answered;

/// A request has one reply.
pub fn requests_have_one_reply()
    ensures { RequestsHaveOneReply }
{
    pairs_ask_one_thing();
    one_first_fault();
    fault_or_asks();
    the_same_is_answered();
}
