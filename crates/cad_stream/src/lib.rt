//! The replies to the requests of a connection's bytes, for any pieces in which they come.
//!
//! - `Responder`: what answers requests, and enters the land office's commands between them
//! - `JournalResponder`: a responder that also gives the commands back, in pieces, and says how many there are
//! - `Summary`: what it holds, in numbers
//! - `Answer`: the reply to one request
//! - `Connection`: the bytes of a connection that no request took yet, and the result of the next piece
//! - `Fed`: the replies to a piece, and the connection after it
//! - `WorkingResponder`: a responder whose answers are begun, and then made in pieces of work; `Begun`, `Part`: what is left for one
//! - `FedBegun`: the replies to a piece, as far as they are made, and the connection after it; `finish` makes one at once
//! - `laws`: what holds of every connection, no matter how its bytes were cut
//!
//! A connection that sends two requests in two pieces, where the second request closes it:
//!
//! ```text
//! // piece: GET / HTTP/1.1\r\nHost: x\r\n
//! let fed = Connection::new(alloc).feed(alloc, piece, &mut responder)?;
//! // fed.bytes is empty, and fed.connection holds the piece.
//! let Some(connection) = fed.connection else { .. };
//! // next: \r\nGET /a HTTP/1.0\r\n\r\nGET /b
//! let fed = connection.feed(alloc, next, &mut responder)?;
//! // fed.bytes are both replies, and fed.connection equals None: the bytes after the second request are dropped.
//! ```
#![tactic(auto)]

mod answer;
mod beginning;
mod connection;
mod finishing;
mod joining;
mod journal_responder;
pub mod laws;
mod next;
mod replies;
mod responder;
mod summary;
mod working_responder;

pub use answer::Answer;
pub use connection::{Connection, Fed, FedBegun};
pub use finishing::finish;
pub use journal_responder::JournalResponder;
pub use responder::Responder;
pub use summary::{Summary, VersionCounts};
pub use working_responder::{Begun, Part, WorkingResponder};
