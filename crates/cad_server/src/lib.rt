//! The server of a ledger: a reply to each request, at the revision that it asks for or the one in force.
//!
//! - [`Server`]: answers requests over any ledger, and enters the land office's commands into it. A desk of connections uses it
//!   (`cad_desk`), and so does serving over a reader and a writer (`cad_serve`)
//! - [`PageWork`]: the work that is left for the reply with a page, which is made in pieces; [`WorkMeter`] counts the features that are
//!   tested and the leaves of plans that are counted
//! - `laws`: that a request has one reply
//!
//! The features at every revision are read from the ledger once, as rows, and are kept. A command adds to them what it changes. So after the
//! first page since the start, no page of any revision reads from the ledger, unless memory ran out at a command. Past a bound of changes a
//! segment of rows gets a new base. A revision's snapshot is a handle of the rows, and four of them are kept. Keeping changes no reply. If one
//! of the ledger's rows is damaged, the rows of the revision that is asked for are listed alone.
//!
//! With a ledger of no commands, the request
//!
//! ```text
//! GET /collections/parcels/items HTTP/1.1
//! Host: x
//! ```
//!
//! gets the status 200, a body of 161 bytes and a connection that stays open:
//! `{"features":[],"links":[{"href":"/collections/parcels/items","rel":"self","type":"application/json"}],"numberReturned":0,"revision":0,"type":"FeatureCollection"}`.
#![tactic(auto)]

mod beginning;
mod chaining;
mod keeping;
pub mod laws;
mod located;
mod page_work;
mod records;
mod requested_page;
mod server;
mod snapshot_cache;
mod sought;
mod stage;
mod totals;
mod turns;
mod work_meter;
mod working;

pub use page_work::PageWork;
pub use server::Server;
pub use work_meter::WorkMeter;
