//! Sockets that never wait, and a history of what is done at them.
//!
//! - `Network`: takes sockets at two doors, says which may be ready, reads and writes them, and lets them go
//! - `is_blocked`: whether a read or a write can't be done now, and may be done later
//!
//! The history of a network says what it does, with a name for each socket, as long as the history is known. The history of the system's
//! network is never known. A loop that is proved by the histories of all networks is proved for the system's network too.
#![tactic(auto)]

mod blocked;
mod network;

pub use blocked::is_blocked;
pub use network::Network;
