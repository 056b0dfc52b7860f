//! The server as its users see it: requests of many clients over a register, and the land office's commands between them.
//!
//! - [`Desk`]: many connections and one land office over a register; [`Event`] is what happens, [`Reply`] what is answered,
//!   and [`DeskFault`] why it is refused
//! - [`serve`]: one connection, from a reader to a writer; [`Ending`] is how it ends, and [`ServeFault`] why it stops
//! - [`listen`]: connections of a listener, one after the other
//! - [`Server`]: the reply to each request, over any ledger of commands
//! - `laws`: what holds of any run of a desk over the server, of connections that are served, and of walks. In a walk, a client asks for a
//!   page, and then follows each page's link `next`. The pages of a walk, joined, are the whole answer of the revision that its first
//!   request asks for. Each feature is shown once, in the order of identifiers, on as many pages as their number requires. It does not
//!   matter on which connections the client asks, what the office enters between its requests, or how often the server is stopped and
//!   started meanwhile
//!
//! With a register, which is a ledger in a database:
//!
//! ```text
//! let mut desk = Desk::new(alloc, register)?;          // or the register back, if there is no memory
//! desk.step(Event::Open(1));                           // Ok(Reply::Opened)
//! desk.step(Event::Bytes(1, head));                    // Ok(Reply::Sent { bytes, ends: false })
//! desk.step(Event::Office(command));                   // Ok(Reply::Entered(11))
//! serve(alloc, &mut reader, &mut writer, &mut desk.connections, 2); // Ok(Ending::PeerEnded)
//! let register = desk.release();
//! ```
//!
//! The first six commands of a register enter unit 10 and the parcels 1 to 4, and amend parcel 1. A client asks for
//! `/collections/parcels/items?limit=2`, and is shown the parcels 1.1 and 1.2 and the link
//! `/collections/parcels/items?limit=2&revision=6&after=1.2`. Then the office amends parcel 3. The client follows the link, and is shown
//! the parcels 2.1 and 3.1 as they were, and a link that ends in `after=3.1`. It follows this link too, and is shown the parcel 4.1 and no
//! link. Five parcels with two on a page take three pages.
//!
//! The contracts of the calls that are named here are where they are defined: in `cad_server`, `cad_desk` and `cad_serve`.
#![tactic(auto)]

mod desk;
pub mod laws;

pub use cad_desk::{DeskFault, Event, Reply};
pub use cad_serve::{Ending, ServeFault, listen, serve};
pub use cad_server::Server;
pub use desk::Desk;
