//! From the head of a request to the resource that it asks for, or to the first check that it fails. A request is
//! given by `httparse`'s spans over the bytes of its head.
//!
//! - `Routes`: the routes of the server, made once
//! - `decide`: what a request asks for or fails, and whether its connection ends after the reply
//! - `Resource`: what a path names; `ResourceQuery`: the same with the text of the query
//! - `Check`: what a request can fail before its query is read: its word, its status, and whether it ends the connection
//! - `laws`: the checks one after the other, and paths written and read again
//!
//! For the head `GET /collections/parcels/items/3.1?f=json HTTP/1.1`, with one Host field, `decide` answers
//! `Resource::Item { collection: Collection::Parcels, identifier: "3.1" }` and the query `f=json`. With `POST` it answers `Check::Method`,
//! with `/collections/lakes/items` `Check::NoCollection`, and without Host `Check::Host`, after which the connection
//! ends.
#![tactic(auto)]

mod check;
mod decision;
mod fields;
pub mod laws;
mod parts;
mod resource;
mod resource_query;
mod route;
mod router;
mod target;

pub use check::Check;
pub use decision::{Decision, decide};
pub use resource::Resource;
pub use resource_query::ResourceQuery;
pub use router::Routes;
