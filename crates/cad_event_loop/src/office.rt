//! A connection of the land office and its socket.

ghost use Rattle.std.specs.Prelude.{◌≡◌};
ghost use Rattle.cad_event_loop.specs.inner.Offices.{end_of_office, is_over as is_over_of, may_go_on as may_go_on_of};
ghost use Rattle.cad_event_loop.specs.Works.{is_last as is_last_of};

use crate::stopped::Stopped;
use cad_desk::Desk;
use cad_dry_run::Report;
use cad_network::Network;
use cad_office::Answer;
use cad_office_socket::{Entry, EntryServed, EntryTurned, Figures};
use cad_stream::JournalResponder;
use cad_versions::RegisterFault;
use std::alloc::Global;

/// For how many seconds the office may take no byte of an answer.
const LONGEST_PAUSE: u64 = 300;

/// Why hosting ends after serving the office with this result, if it does.
pub(crate) fn end_of(served: EntryServed) -> Option<Stopped>
    ensures { result ≡ end_of_office served }
{
    match served {
        EntryServed::Goes | EntryServed::Waits | EntryServed::Over => None,
        EntryServed::Stops => Some(Stopped::Asked),
        EntryServed::StoreRefused => Some(Stopped::StoreRefused),
    }
}

/// Whether the office's connection is over.
fn is_over(served: EntryServed) -> bool
    ensures { result ≡ is_over_of served }
{
    matches!(served, EntryServed::Over)
}

/// Whether the office may continue at once, if its connection is not over.
pub(crate) fn may_go_on(served: EntryServed) -> bool
    ensures { result ≡ may_go_on_of served }
{
    !matches!(served, EntryServed::Waits)
}

/// Whether the office's connection is over by a turn.
fn is_last(turned: &EntryTurned) -> bool
    ensures { result ≡ is_last_of turned.now }
{
    match turned {
        EntryTurned::Lost(Answer::Refused(RegisterFault::Store))
        | EntryTurned::CheckLost(Report::Refused(RegisterFault::Store))
        | EntryTurned::RowsLost(RegisterFault::Store) => false,
        EntryTurned::Over
        | EntryTurned::Lost(_)
        | EntryTurned::CheckLost(_)
        | EntryTurned::StatusLost
        | EntryTurned::RowsLost(_)
        | EntryTurned::PieceLost => true,
        EntryTurned::Wrote
        | EntryTurned::Took
        | EntryTurned::Added
        | EntryTurned::Answered(_)
        | EntryTurned::Checked(_)
        | EntryTurned::StatusAnswered(_)
        | EntryTurned::JournalBegun(_)
        | EntryTurned::RowsRead
        | EntryTurned::RowsRefused(_)
        | EntryTurned::Piece
        | EntryTurned::Stops
        | EntryTurned::Waits => false,
    }
}

/// When an answer began or a byte of it was written last, if so many bytes were unwritten before it was served and so many are now. An
/// office is not served beyond the end of an answer: if the same number is unwritten, no byte was written.
fn moved_after(before: usize, after: usize, moved: u64, now: u64) -> u64 {
    if before == after { moved } else { now }
}

/// A connection of the land office and its socket.
#[derive(Drop)]
pub(crate) struct Office<S, J> {
    pub(crate) socket: S,
    pub(crate) entry: Entry<J>,
    /// When the answer that is to be written began, or a byte of it was written last. This is in seconds, as the network reported them.
    moved: u64,
}

impl<S: Drop, J: Drop> Office<S, J> {
    ghost use Rattle.std.specs.Prelude.{IsTrue};
    ghost use Rattle.cad_network.specs.Deeds.{AddsSome};
    ghost use Rattle.cad_office_socket.specs.Turns.{IsNewEntry, IsSending};
    ghost use Rattle.cad_event_loop.specs.inner.Offices.{HasOfficeTurns, HasSent};

    /// An office from which nothing was read.
    pub(crate) fn new(alloc: Global, socket: S, now: u64) -> Office<S, J>
        ensures socket { result.socket ≡ socket }
        ensures new { IsNewEntry result.entry }
    {
        Office {
            socket,
            entry: Entry::new(alloc),
            moved: now,
        }
    }

    /// Its socket. Everything else is dropped.
    pub(crate) fn into_socket(self) -> S
        ensures { result ≡ self.socket }
    {
        let Office {
            socket,
            entry: _,
            moved: _,
        } = self;
        socket
    }

    /// Whether its socket took no byte of an answer for too long.
    pub(crate) fn is_overdue(&self, now: u64) -> bool
        ensures { IsTrue result → IsSending self.now.entry }
    {
        self.entry.is_sending() && LONGEST_PAUSE <= now.saturating_sub(self.moved)
    }

    /// Serves the office with some turns, and returns it. Their answers count, and a status shows the figures. If its connection is over, its socket is let go and no office is returned.
    pub(crate) fn serve<N: Network<Socket = S>, R: JournalResponder<Reading = J>>(
        self,
        alloc: Global,
        now: u64,
        net: &mut N,
        desk: &mut Desk<R>,
        figures: &mut Figures,
    ) -> (EntryServed, Option<Office<S, J>>)
        ensures { AddsSome (N.history net.old) (N.history net.new) (HasOfficeTurns R.Responder R.JournalResponder.own N.name figures.old figures.new desk.old self result desk.new) }
    {
        let Office {
            socket,
            mut entry,
            moved,
        } = self;
        let before = entry.unwritten_len();
        let served = entry.serve(alloc, net, &socket, desk, figures);
        if is_over(served) {
            net.let_go(socket);
            return (served, None);
        }
        let moved = moved_after(before, entry.unwritten_len(), moved, now);
        (
            served,
            Some(Office {
                socket,
                entry,
                moved,
            }),
        )
    }

    /// Writes once what is not written of the answer, and returns the office. Nothing is read. If its connection is over, its socket is let
    /// go and no office is returned.
    pub(crate) fn send<N: Network<Socket = S>>(
        self,
        net: &mut N,
    ) -> (EntryTurned, Option<Office<S, J>>)
        requires { IsSending self.entry }
        ensures { AddsSome (N.history net.old) (N.history net.new) (HasSent N.name self result) }
    {
        let Office {
            socket,
            mut entry,
            moved,
        } = self;
        let turned = entry.send(net, &socket);
        if is_last(&turned) {
            net.let_go(socket);
            return (turned, None);
        }
        (
            turned,
            Some(Office {
                socket,
                entry,
                moved,
            }),
        )
    }
}
