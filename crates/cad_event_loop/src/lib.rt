//! Many clients and a land office with up to four connections at a desk, in one thread, over any network: the readiness of sockets determines
//! whose turn it is.
//!
//! - `host`: takes clients at one door and the land office at another, until the office asks to stop
//! - `Stopped`: why hosting ended
//! - `CLIENTS_DOOR`, `OFFICE_DOOR`, `PLACES`: the places by which a network reports who may continue
//! - `laws`: what was written to a socket, what happens to a connection in a round, and which commands the ledger holds at the end
//!
//! What is proved: hosting begins without connections and does a list of works, and their deeds are all that was done at the network. It
//! ends as the database's refusal exactly if the database refused one of these works, no matter what happens to the connection that asked.
//! It ends as the office's wish only if a connection of the office read `stop`. The work by which it ends is the last before it closes. It
//! closes without reading or answering, and at every end each socket is let go.
//!
//! The works are rounds. In each round, each connection that may continue has its turns, and each of the land office has one after each
//! client's. A connection may continue if it came or the network reported it since its last turn, or if it did not wait then. A connection has
//! turns up to one at which it waits or is over, or a reply is written, or a piece of work did not make its reply, or it has four. Those whose
//! replies are to be worked on stand in a line: after the turns of the others in a round, the first of the line has one piece of work and goes
//! behind at most seven others. So a small request waits for one piece of work and for those that may continue, however many replies are worked
//! on, and the work in a round is at most 64 first pieces and a later one. `laws` has what follows for a client's socket, for the office's and
//! for the ledger.
//!
//! What remains to be checked by reading this code, and is only tested, by `clients_cases`, `scripts/check_host`, `scripts/check_clients`
//! and `scripts/check_proxy`:
//!
//! - the times: each round drops the clients that `Clients::is_overdue` reports, by limits of 60 and 300 seconds and the seconds that the
//!   network reported, and the connections of the land office that took no byte of an answer for 300 seconds; 50 milliseconds for a wait while
//!   somebody may stand at a door, as after the system could not hand over a connection, or after 64 clients came in a round;
//! - the counts: the figures of a status count each client, reply and later piece of work, and each look at the network.
//!
//! ```text
//! host(alloc, &mut net, &mut desk, &mut meter, &mut NoLog)?    // Stopped::Asked after the office's line `stop`
//! ```
#![tactic(auto)]

mod closing;
mod counting;
mod hosting;
pub mod laws;
mod line;
mod office;
mod offices;
mod peers;
mod readiness;
mod rounds;
mod stopped;

pub use hosting::host;
pub use readiness::{CLIENTS_DOOR, OFFICE_DOOR, PLACES};
pub use stopped::Stopped;
