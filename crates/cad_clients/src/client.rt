//! A connection, its socket, and when something was last done for it.

use crate::budget::Budget;
use crate::channel::Channel;
use crate::limits::Limits;
use crate::turned::Turned;
use cad_desk::Desk;
use cad_network::Network;
use cad_stream::WorkingResponder;
use std::alloc::Global;

/// A connection with its socket, and when something was done for it.
#[derive(Drop)]
pub(crate) struct Client<S, W> {
    pub(crate) socket: S,
    pub(crate) channel: Channel<W>,
    /// Its socket may give or take something: the network reported that since the last turn, or the last turn did not wait.
    pub(crate) is_ready: bool,
    /// When a byte was read or written last, or a reply was worked on.
    moved: u64,
    /// Since when the time of a request runs whose reply has not gone out yet.
    begun: Option<u64>,
}

impl<S, W: Drop> Client<S, W> {
    ghost use Rattle.std.specs.Prelude.{◌≡◌, ◌≤◌, ◌+◌, ◌*◌, ◌↔◌, false, IsTrue};
    ghost use Rattle.cad_network.specs.Deeds.{AddsSome};
    ghost use Rattle.cad_clients.specs.Budgets.{units_of, worked_by, GetsLess};
    ghost use Rattle.cad_clients.specs.Channels.{has_ended, is_working, IsTurn};
    ghost use Rattle.cad_clients.specs.Laws.{IsNew};
    ghost use Rattle.cad_clients.specs.Notes.{begun_after as begun_after_of, first_notes, noted, notes_of, IsOverdue};

    /// A connection that was just opened.
    pub(crate) fn new(alloc: Global, socket: S, now: u64) -> Client<S, W>
        ensures socket { result.socket ≡ socket }
        ensures new { IsNew result.channel }
        ensures goes_on { has_ended result.channel ≡ false }
        ensures notes { notes_of result ≡ first_notes now }
    {
        Client {
            socket,
            channel: Channel::new(alloc),
            is_ready: true,
            moved: now,
            begun: None,
        }
    }

    /// Its socket. Everything else is dropped.
    pub(crate) fn into_socket(self) -> S
        ensures { result ≡ self.socket }
    {
        let Client {
            socket,
            channel: _,
            is_ready: _,
            moved: _,
            begun: _,
        } = self;
        socket
    }

    /// Since when the time of a request runs, after a turn at this moment that did not write.
    fn begun_after(&self, now: u64, budget: Budget) -> Option<u64>
        ensures { result ≡ begun_after_of now budget (is_working self.now.channel) self.now.begun }
    {
        if budget == Budget::First && self.channel.is_working() {
            return None;
        }
        self.begun.or(Some(now))
    }

    /// Notes the result of a turn by this budget, and when it was.
    fn note(&mut self, turned: Turned, budget: Budget, now: u64)
        ensures socket { self.new.socket ≡ self.old.socket }
        ensures channel { self.new.channel ≡ self.old.channel }
        ensures notes { notes_of self.new ≡ noted now budget turned self.old.channel (notes_of self.old) }
    {
        match turned {
            Turned::Wrote => {
                self.is_ready = true;
                self.moved = now;
                if self.channel.sending().is_empty() {
                    self.begun = None;
                }
            }
            Turned::Took => {
                self.is_ready = true;
                self.moved = now;
                self.begun = self.begun.or(Some(now));
            }
            Turned::Fed => {
                self.is_ready = true;
                self.begun = self.begun_after(now, Budget::First);
            }
            Turned::Worked => {
                self.is_ready = true;
                self.moved = now;
                self.begun = self.begun_after(now, budget);
            }
            Turned::Waits => self.is_ready = false,
            Turned::Over(_) => {}
        }
    }

    /// A turn of the channel.
    pub(crate) fn turn<N: Network<Socket = S>, R: WorkingResponder<Work = W>>(
        &mut self,
        alloc: Global,
        c: u32,
        budget: Budget,
        now: u64,
        net: &mut N,
        desk: &mut Desk<R>,
        meter: &mut R::Meter,
    ) -> Turned
        ensures bounded { R.spent meter.new ≤ R.spent meter.old + units_of budget * worked_by result }
        ensures less { GetsLess R.remaining result self.old.channel self.new.channel }
        ensures turn { AddsSome (N.history net.old) (N.history net.new)
            (IsTurn R.Responder R.owes c (N.name self.old.socket) desk.old self.old.channel result desk.new self.new.channel) }
        ensures socket { self.new.socket ≡ self.old.socket }
        ensures notes { notes_of self.new ≡ noted now budget result self.new.channel (notes_of self.old) }
    {
        let turned = self
            .channel
            .turn(alloc, c, budget.units(), net, &self.socket, desk, meter);
        self.note(turned, budget, now);
        turned
    }

    /// Whether nothing was done for it for too long although no reply is worked on, or the time of one of its requests ran for too long.
    pub(crate) fn is_overdue(&self, now: u64, limits: &Limits) -> bool
        ensures { IsTrue result ↔ IsOverdue now limits.now self.now }
    {
        let is_idle = !self.channel.is_working() && limits.idle <= now.saturating_sub(self.moved);
        match self.begun {
            Some(begun) => is_idle || limits.request <= now.saturating_sub(begun),
            None => is_idle,
        }
    }
}
