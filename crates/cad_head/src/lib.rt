//! Heads of HTTP: that of a request, found at the front of a connection's bytes, and the bytes of a reply.
//!
//! A request's head is one of HTTP/1.x, as the default grammar of `httparse` reads it, with a bound on its bytes and on its fields. The
//! caller keeps the bytes: the results are places in them, and nothing is copied.
//!
//! - `limits`: how long a head may be, and the bytes that it may take
//! - `parsing`: whether a whole head is there, may still come, or cannot come
//! - `pieces`: whether a new piece can change that
//! - `closes_connection`: whether the version or the fields of a head close the connection after the reply
//! - `Status`, `reply_bytes`: the statuses of replies with a body, and a whole reply: status line, field lines and a JSON body
//! - `laws`: what the definitions say together
//!
//! For the bytes `GET / HTTP/1.1\r\nHost: x\r\n\r\nGET /a`, `front_of` answers `Complete` with a head of 27 bytes and one field; for their
//! first 26 bytes it answers `Incomplete`, and for `GET\0` `Invalid`. `closes_connection` answers true for a head of HTTP/1.0, and for one
//! of HTTP/1.1 with the field `Connection: keep-alive, Close`.
//!
//! For the status `Status::NotFound`, a connection that stays open, and the body `{"fault":"no-resource"}`
//! `reply_bytes` gives `HTTP/1.1 404 Not Found\r\nContent-Type: application/json\r\nContent-Length: 23\r\n\r\n`
//! and then the body.
#![tactic(auto)]

mod fields;
pub mod laws;
mod limits;
mod parsing;
mod pieces;
mod reply;
mod status;

pub use fields::closes_connection;
pub use limits::{FIELD_ROOM, FRONT_LEN, front_bytes};
pub use parsing::{HeadState, front_of};
pub use pieces::may_settle;
pub use reply::reply_bytes;
pub use status::Status;
