//! What hosting guarantees. Each contract is a law; the functions do nothing.

ghost use Rattle.cad_event_loop.specs.Lives.{EachHasItsLife};
ghost use Rattle.cad_event_loop.specs.Journals.{JournalsAreWritten};
ghost use Rattle.cad_event_loop.specs.Laws.{LedgerStands, SocketsAreTheirOwn};
ghost use Rattle.cad_event_loop.specs.Replying.{EachIsServed};
ghost use Rattle.cad_event_loop.specs.Statuses.{StatusesAreCurrent};
ghost use Rattle.cad_event_loop.specs.Streams.{OfficeIsAnswered};

use cad_clients::laws::channels_are_their_own;
use cad_stream::{JournalResponder, WorkingResponder};

/// At the end, the ledger holds the commands from before and those that the land office's lines asked for and that were answered by a
/// revision, in their order and with these revisions. It holds no others.
pub fn ledger_stands<R: JournalResponder + WorkingResponder>()
    ensures { LedgerStands R.Responder R.JournalResponder.own R.owes }
{}

/// From any moment on, an open connection has its life: its own acts at its own socket, and the events that the desk gets for others.
pub fn each_has_its_life<R: JournalResponder + WorkingResponder>()
    ensures { EachHasItsLife R.Responder R.JournalResponder.own R.owes }
{}

/// For a socket that came once, all that was read went to the desk under its own number. What was written are the replies to that, each
/// with the commands in force when its head came, or all of these replies and then the beginning of the fixed head. This holds for any
/// other sockets, lines of the land office and readiness that come.
pub fn sockets_are_their_own<R: JournalResponder + WorkingResponder>()
    ensures { SocketsAreTheirOwn R.Responder R.JournalResponder.own R.owes }
{
    channels_are_their_own::<R>();
}

/// For a socket of the land office that came once, the lines that were read ended in their order, each once, and each command was entered
/// before it was answered. What was written are their answers in that order, except for an unwritten rest of the last one. They are all
/// written if the office sent no more and no read and no write failed. This holds for any other sockets that come.
pub fn office_is_answered<R: JournalResponder + WorkingResponder>()
    ensures { OfficeIsAnswered R.Responder R.JournalResponder.own R.owes }
{}

/// If a line of the land office asks for the journal after a revision, the answer is the commands that the ledger held after that revision
/// when the line ended, as lines and in their order, and then the newest of these revisions; or it is a refusal. This holds for any other
/// commands that are entered meanwhile, and for any other connections. All of it is written before more is read or taken of this connection.
pub fn journals_are_written<R: JournalResponder + WorkingResponder>()
    ensures { JournalsAreWritten R.Responder R.JournalResponder.own R.owes }
{
    R::readings_stay();
}

/// If a line of the land office asks for the status, the answer sums up the commands that were in force when the line ended: their number,
/// and the versions after them by their classes if these are known. This holds for any other connections and for all that they do.
pub fn statuses_are_current<R: JournalResponder + WorkingResponder>()
    ensures { StatusesAreCurrent R.Responder R.JournalResponder.own R.owes }
{}

/// For a connection that is open when a round begins, one of these holds in that round, if the round is made to its end:
///
/// - it waits, since a turn in this round or in an earlier one: then all that was read was taken and all that the desk sent was written, or
///   its socket took nothing more
/// - a reply of it is worked on since an earlier round, and it is in the line, whose first has a piece of work in each round
/// - it is let go
/// - the desk takes a piece of what was read, and all that it sends for that is written
/// - a reply is worked on, and one is to be worked on after that, so it is in the line
/// - it has four turns
///
/// So if a request is complete by the bytes that were read in a round, its reply is written at the end of the next round, unless its peer
/// takes nothing, or is gone, or the reply takes more than a first piece of work, or four turns were not enough. A long reply takes more
/// rounds, and so does each request after the first of those that came together. What is made and under way when hosting ends is written for
/// at most five seconds.
pub fn each_is_served<R: JournalResponder + WorkingResponder>()
    ensures { EachIsServed R.Responder R.JournalResponder.own R.owes }
{}
