//! The common parts of cases and tests: scripts of events at a desk, an answerer that returns the words of each request, and readers and
//! writers that end or fail at a given place.
//!
//! - [`Echo`]: answers each request with its method, its target and the revision in force, over a ledger in memory. Two targets have no
//!   reply: `/lost` is refused with `NotARegister`, and `/full` with `Memory`. The reply to `/units/N` takes N units of work,
//!   and so does that to `/unmade/N`, but there is no memory for the last of them.
//! - [`Echoing`]: the work that is left for such a reply; [`Units`] counts what was done
//! - [`Peer`]: a reader. `Peer::new(b"GET", 1, 2, Stop::Fails)` gives `G`, then `E`, and then it fails.
//! - [`Endless`]: a reader that gives a text again and again. `Endless::new(b"ab")` gives `a`, then `b`, then `a`.
//! - [`Taker`]: a writer that keeps what it took. `Taker::new(2, 3, Stop::Ends)` takes two bytes, then one, and then none.
//! - [`Copies`]: a writer that counts copies of a text. `Copies::new(b"ab")` has counted 2 after it was given `abab`.
//! - `listed`: what a ledger lists, as text
//! - `line_of`: what a line asks for
//! - `answer`: what is printed for it; `answer_event` and `answer_served` are its parts, for a desk within something else
//!
//! The lines are
//!
//! - `open C`, which opens connection C, and is answered by `Opened`;
//! - `bytes C JSON`, which sends it these bytes, and is answered by `Sent JSON`, or `Sent JSON ends` if the connection ended;
//! - `close C`, which closes it, and is answered by `Closed`;
//! - `office LINE`, which enters the command of a line of the land office, and is answered by `Entered N`;
//! - `serve C JSON`, which serves connection C from a reader that gives one byte a read to a writer that takes one byte a write, and is
//!   answered by how that ended and the bytes written;
//! - `fail-read K C JSON` and `fail-write K C JSON`, which do the same while the Kth read or write fails, and `empty-write K C JSON`, while
//!   the Kth write takes nothing.
//!
//! If the desk refuses, the answer to any of them is `N NAME`, followed by the register's fault if the register refused. The bytes are
//! written as JSON: each character of a string, U+0000 to U+00FF, means the byte of its number. A list of such strings and of pairs `[N,
//! STRING]` means all of their bytes, those of the STRING of a pair N times. So `["GET /", [3, "a"], "\n"]` is the nine bytes of `GET
//! /aaa\n`. The line `open 1` asks for `Line::Event(Event::Open(1))`, and `open one` for nothing.
#![tactic(auto)]

mod answers;
mod bytes;
mod copies;
mod echo;
mod echoing;
mod endless;
mod ledgers;
mod lines;
mod peer;
mod served;
mod stop;
mod taker;

pub use answers::{Memory, answer, answer_event};
pub use copies::Copies;
pub use echo::Echo;
pub use echoing::{Echoing, Units};
pub use endless::Endless;
pub use ledgers::listed;
pub use lines::{Failure, Line, Served, line_of};
pub use peer::Peer;
pub use served::answer_served;
pub use stop::Stop;
pub use taker::Taker;
