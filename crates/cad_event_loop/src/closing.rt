//! Writing what is under way when hosting ends, and letting all go.

use crate::peers::any_sending;
use crate::readiness::MOST_OFFICES;
use crate::rounds::Rounds;
use cad_desk::Desk;
use cad_network::Network;
use cad_office_socket::EntryTurned;
use cad_stream::{JournalResponder, WorkingResponder};
use std::io::{ErrorKind, Result};

/// For how many seconds replies and the office's answers are written once hosting ends.
const LAST_SECONDS: u64 = 5;

/// The most milliseconds of one wait meanwhile.
const LAST_PATIENCE: u64 = 100;

impl<S: Drop, J: Drop, W: Drop> Rounds<S, J, W> {
    ghost use Rattle.std.specs.Prelude.{◌≡◌, ◌<◌, ℕ, None, IfOk, IsOk, IsTrue};
    ghost use Rattle.cad_event_loop.specs.Hosting.{Hosts, IsClosing};
    ghost use Rattle.cad_event_loop.specs.inner.Closings.{IsAllSent, IsLastSent};
    ghost use Rattle.cad_event_loop.specs.inner.Offices.{seat_at, Seats};
    ghost use Rattle.cad_event_loop.specs.inner.Rounds.{here};
    ghost use Rattle.cad_event_loop.specs.Works.{most_offices, IsEmpty};

    /// Waits until a socket may take something, or for `LAST_PATIENCE`.
    fn wait_last<
        N: Network<Socket = S>,
        R: JournalResponder<Reading = J> + WorkingResponder<Work = W>,
    >(&mut self, net: &mut N, desk: &mut Desk<R>) -> Result<()>
        ensures { Hosts R.Responder R.JournalResponder.own R.owes IsClosing None (N.history net.old) desk.old (here N.name self.old) (N.history net.new) desk.new (here N.name self.new) }
    {
        self.peers.wait(net, LAST_PATIENCE)
    }

    /// Writes once to a connection of the land office what is not written of its answer, if its socket may take something.
    fn send_office<
        N: Network<Socket = S>,
        R: JournalResponder<Reading = J> + WorkingResponder<Work = W>,
    >(&mut self, k: usize, net: &mut N, desk: &mut Desk<R>)
        requires { k < most_offices }
        ensures { Hosts R.Responder R.JournalResponder.own R.owes IsClosing None (N.history net.old) desk.old (here N.name self.old) (N.history net.new) desk.new (here N.name self.new) }
    {
        if !self.peers.ready.office(k) || !self.offices.is_sending(k) {
            return;
        }
        let Some(office) = self.offices.take(k) else {
            return;
        };
        let (turned, office) = office.send(net);
        self.offices.put(k, office);
        self.peers
            .ready
            .set_office(k, !matches!(turned, EntryTurned::Waits));
    }

    /// The same for each of them.
    fn send_offices<
        N: Network<Socket = S>,
        R: JournalResponder<Reading = J> + WorkingResponder<Work = W>,
    >(&mut self, net: &mut N, desk: &mut Desk<R>)
        ensures { Hosts R.Responder R.JournalResponder.own R.owes IsClosing None (N.history net.old) desk.old (here N.name self.old) (N.history net.new) desk.new (here N.name self.new) }
    {
        for k in 0..MOST_OFFICES {
            self.send_office(k, net, desk);
        }
    }

    /// Writes once to the clients and the land office what is not written yet, if their sockets may take something.
    fn send_all<
        N: Network<Socket = S>,
        R: JournalResponder<Reading = J> + WorkingResponder<Work = W>,
    >(&mut self, net: &mut N, desk: &mut Desk<R>, meter: &mut R::Meter)
        ensures { Hosts R.Responder R.JournalResponder.own R.owes IsClosing None (N.history net.old) desk.old (here N.name self.old) (N.history net.new) desk.new (here N.name self.new) }
    {
        self.peers.send_ready(net, desk, meter);
        self.send_offices(net, desk);
    }

    /// Whether nothing is left to be written of the replies that are made and of the office's answers that are under way.
    fn is_sent(&self) -> bool
        ensures { IsTrue result → IsAllSent self.now }
    {
        !self.offices.any_sending() && !any_sending(&self.peers.clients)
    }

    /// Writes the replies that are made and the office's answers that are under way, for at most five seconds. Nothing is read or answered, and
    /// no reply is worked on.
    fn send_last<
        N: Network<Socket = S>,
        R: JournalResponder<Reading = J> + WorkingResponder<Work = W>,
    >(&mut self, net: &mut N, desk: &mut Desk<R>, meter: &mut R::Meter) -> Result<()>
        ensures sent { IfOk result (λ _. IsLastSent self.old self.new) }
        ensures hosts { Hosts R.Responder R.JournalResponder.own R.owes IsClosing None (N.history net.old) desk.old (here N.name self.old) (N.history net.new) desk.new (here N.name self.new) }
    {
        let began = self.peers.now;
        for _ in 0..u64::MAX {
            self.send_all(net, desk, meter);
            if self.is_sent() || LAST_SECONDS <= self.peers.now.saturating_sub(began) {
                return Ok(());
            }
            self.wait_last(net, desk)?;
        }
        Err(ErrorKind::TimedOut.into())
    }

    /// The same, if the network did not fail before.
    fn send_if<
        N: Network<Socket = S>,
        R: JournalResponder<Reading = J> + WorkingResponder<Work = W>,
    >(
        &mut self,
        is_sound: bool,
        net: &mut N,
        desk: &mut Desk<R>,
        meter: &mut R::Meter,
    ) -> Result<()>
        ensures sent { IsTrue is_sound → IfOk result (λ _. IsLastSent self.old self.new) }
        ensures hosts { Hosts R.Responder R.JournalResponder.own R.owes IsClosing None (N.history net.old) desk.old (here N.name self.old) (N.history net.new) desk.new (here N.name self.new) }
    {
        if is_sound {
            self.send_last(net, desk, meter)
        } else {
            Ok(())
        }
    }

    /// Lets a connection of the land office go, if it is open.
    fn part_office<
        N: Network<Socket = S>,
        R: JournalResponder<Reading = J> + WorkingResponder<Work = W>,
    >(&mut self, k: usize, net: &mut N, desk: &mut Desk<R>)
        requires { k < most_offices }
        ensures clients { self.new.peers ≡ self.old.peers }
        ensures gone { Seats self.old.offices self.new.offices k None }
        ensures hosts { Hosts R.Responder R.JournalResponder.own R.owes IsClosing None (N.history net.old) desk.old (here N.name self.old) (N.history net.new) desk.new (here N.name self.new) }
    {
        if let Some(office) = self.offices.take(k) {
            net.let_go(office.into_socket());
        }
    }

    /// Lets each connection of the land office go.
    fn part_offices<
        N: Network<Socket = S>,
        R: JournalResponder<Reading = J> + WorkingResponder<Work = W>,
    >(&mut self, net: &mut N, desk: &mut Desk<R>)
        ensures clients { self.new.peers ≡ self.old.peers }
        ensures nobody { (k : ℕ) → seat_at self.new.offices k ≡ None }
        ensures hosts { Hosts R.Responder R.JournalResponder.own R.owes IsClosing None (N.history net.old) desk.old (here N.name self.old) (N.history net.new) desk.new (here N.name self.new) }
    {
        for k in 0..MOST_OFFICES {
            self.part_office(k, net, desk);
        }
    }

    /// Lets all go.
    fn part<N: Network<Socket = S>, R: JournalResponder<Reading = J> + WorkingResponder<Work = W>>(
        &mut self,
        net: &mut N,
        desk: &mut Desk<R>,
    )
        ensures nobody { IsEmpty (here N.name self.new) }
        ensures hosts { Hosts R.Responder R.JournalResponder.own R.owes IsClosing None (N.history net.old) desk.old (here N.name self.old) (N.history net.new) desk.new (here N.name self.new) }
    {
        self.peers.part(net, desk);
        self.part_offices(net, desk);
    }

    /// Writes what is under way, if the network did not fail before, and then lets all go.
    pub(crate) fn end<
        N: Network<Socket = S>,
        R: JournalResponder<Reading = J> + WorkingResponder<Work = W>,
    >(
        &mut self,
        is_sound: bool,
        net: &mut N,
        desk: &mut Desk<R>,
        meter: &mut R::Meter,
    ) -> Result<()>
        ensures drained { IsOk result → N.is_drained net.new }
        ensures nobody { IsEmpty (here N.name self.new) }
        ensures hosts { Hosts R.Responder R.JournalResponder.own R.owes IsClosing None (N.history net.old) desk.old (here N.name self.old) (N.history net.new) desk.new (here N.name self.new) }
    {
        let sent = self.send_if(is_sound, net, desk, meter);
        self.part(net, desk);
        let drained = net.drain();
        sent.and(drained)
    }
}
