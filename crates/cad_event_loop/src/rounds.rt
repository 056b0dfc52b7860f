//! The clients and the land office, served alternately.

use crate::office::{Office, end_of, may_go_on};
use crate::offices::Offices;
use crate::peers::{Peers, any_ready};
use crate::readiness::{MOST_OFFICES, OFFICE};
use crate::stopped::Stopped;
use cad_clients::{AccessLog, ROOM};
use cad_desk::Desk;
use cad_network::{Network, is_blocked};
use cad_stream::{JournalResponder, WorkingResponder};
use std::alloc::{AllocError, Global};
use std::io::Result;

/// The most milliseconds of one wait.
const PATIENCE: u64 = 1000;

/// The same if somebody may still wait at a door, as after the system could not hand over a connection.
const IMPATIENCE: u64 = 50;

/// The clients and the land office's connections.
#[derive(Drop)]
pub(crate) struct Rounds<S, J, W> {
    pub(crate) peers: Peers<S, W>,
    pub(crate) offices: Offices<S, J>,
}

impl<S: Drop, J: Drop, W: Drop> Rounds<S, J, W> {
    ghost use Rattle.std.specs.Prelude.{◌≡◌, ℕ, ◌+◌, ◌<◌, ◌≤◌, List, [], ◌∷◌, Option, None, Some, IfOk, IsSomeAnd};
    ghost use Rattle.cad_network.specs.Deeds.{Deed, office_came, Adds};
    ghost use Rattle.cad_event_loop.specs.Hosting.{end_of_round, end_of_rounds, Serves};
    ghost use Rattle.cad_clients.specs.Budgets.{first_piece, later_piece};
    ghost use Rattle.cad_clients.specs.Notes.{MayGoOn};
    ghost use Rattle.cad_clients.specs.Slots.{client_at};
    ghost use Rattle.cad_event_loop.specs.inner.Line.{first_of};
    ghost use Rattle.cad_event_loop.specs.inner.Offices.{seat_at, HaveBegun, HaveBegunUnless};
    ghost use Rattle.cad_event_loop.specs.inner.Rounds.{here, standing, IsNobody};
    ghost use Rattle.cad_event_loop.specs.inner.Standing.{first_pieces, most_pieces, GivesPiece, GivesTurnAlone, HearsBetween, IsAsked, IsAtDoors, MakesRound, ServesAll, ServesOffice, ServesOffices, ServesPeers, VisitsClient, WorksOnFirst};
    ghost use Rattle.cad_event_loop.specs.Turns.{most_between, most_clients_changed, most_for_client, most_for_offices, most_in_round, most_offices_changed, most_served, AreServed};
    ghost use Rattle.cad_event_loop.specs.Works.{most_offices};
    ghost use Rattle.cad_clients.specs.Steps.{most_turns};
    ghost use Rattle.cad_office_socket.specs.Serving.{most_turns as most_for_office};

    /// Without clients and land office.
    pub(crate) fn new(alloc: Global) -> std::result::Result<Rounds<S, J, W>, AllocError>
        ensures { IfOk result IsNobody }
    {
        let peers = Peers::new(alloc)?;
        let offices = Offices::new(alloc)?;
        Ok(Rounds { peers, offices })
    }

    /// Waits until a socket may give or take something, or until the time is over, while clients are served.
    fn wait<N: Network<Socket = S>, R: JournalResponder<Reading = J> + WorkingResponder<Work = W>>(
        &mut self,
        net: &mut N,
        desk: &mut Desk<R>,
        milliseconds: u64,
    ) -> Result<()>
        ensures offices { self.new.offices ≡ self.old.offices }
        ensures hosts { Serves R.Responder R.JournalResponder.own R.owes (IsAsked (standing N.name self.old) (standing N.name self.new)) None (N.history net.old) desk.old (here N.name self.old) (N.history net.new) desk.new (here N.name self.new) }
    {
        self.peers.wait(net, milliseconds)
    }

    /// Serves a connection of the land office with some turns, if it is open.
    fn serve_office_once<
        N: Network<Socket = S>,
        R: JournalResponder<Reading = J> + WorkingResponder<Work = W>,
    >(&mut self, k: usize, net: &mut N, desk: &mut Desk<R>) -> Option<Stopped>
        requires number { k < most_offices }
        requires begun { HaveBegun self.old.offices }
        ensures begun { HaveBegunUnless result self.new.offices }
        ensures hosts { Serves R.Responder R.JournalResponder.own R.owes (ServesOffice k most_for_office (standing N.name self.old) (standing N.name self.new)) result (N.history net.old) desk.old (here N.name self.old) (N.history net.new) desk.new (here N.name self.new) }
    {
        let Some(office) = self.offices.take(k) else {
            self.peers.ready.set_office(k, false);
            return None;
        };
        self.peers.figures = self.peers.counted();
        let (served, office) = office.serve(
            self.peers.alloc,
            self.peers.now,
            net,
            desk,
            &mut self.peers.figures,
        );
        self.offices.put(k, office);
        self.peers.ready.set_office(k, may_go_on(served));
        end_of(served)
    }

    /// Serves a connection of the land office, if it may continue.
    fn serve_office<
        N: Network<Socket = S>,
        R: JournalResponder<Reading = J> + WorkingResponder<Work = W>,
    >(&mut self, k: usize, net: &mut N, desk: &mut Desk<R>) -> Option<Stopped>
        requires number { k < most_offices }
        requires begun { HaveBegun self.old.offices }
        ensures begun { HaveBegunUnless result self.new.offices }
        ensures hosts { Serves R.Responder R.JournalResponder.own R.owes (ServesOffice k most_for_office (standing N.name self.old) (standing N.name self.new)) result (N.history net.old) desk.old (here N.name self.old) (N.history net.new) desk.new (here N.name self.new) }
    {
        if !self.peers.ready.office(k) {
            return None;
        }
        self.serve_office_once(k, net, desk)
    }

    /// Serves each connection of the land office that may continue.
    fn serve_offices<
        N: Network<Socket = S>,
        R: JournalResponder<Reading = J> + WorkingResponder<Work = W>,
    >(&mut self, net: &mut N, desk: &mut Desk<R>) -> Option<Stopped>
        requires { HaveBegun self.old.offices }
        ensures begun { HaveBegunUnless result self.new.offices }
        ensures hosts { Serves R.Responder R.JournalResponder.own R.owes (ServesOffices most_for_offices result (standing N.name self.old) (standing N.name self.new)) result (N.history net.old) desk.old (here N.name self.old) (N.history net.new) desk.new (here N.name self.new) }
    {
        for k in 0..MOST_OFFICES {
            if let Some(stopped) = self.serve_office(k, net, desk) {
                return Some(stopped);
            }
        }
        None
    }

    /// Serves the land office between two clients, with what it sent meanwhile.
    fn serve_offices_between<
        N: Network<Socket = S>,
        R: JournalResponder<Reading = J> + WorkingResponder<Work = W>,
    >(&mut self, net: &mut N, desk: &mut Desk<R>) -> Result<Option<Stopped>>
        requires { HaveBegun self.old.offices }
        ensures begun { HaveBegunUnless (end_of_round result) self.new.offices }
        ensures hosts { Serves R.Responder R.JournalResponder.own R.owes (HearsBetween most_between result (standing N.name self.old) (standing N.name self.new)) (end_of_round result) (N.history net.old) desk.old (here N.name self.old) (N.history net.new) desk.new (here N.name self.new) }
    {
        if self.offices.is_empty() {
            return Ok(None);
        }
        self.wait(net, desk, 0)?;
        Ok(self.serve_offices(net, desk))
    }

    /// Serves a client that may continue. Returns why hosting ends by that, if it does.
    fn serve_peer<
        N: Network<Socket = S>,
        R: JournalResponder<Reading = J> + WorkingResponder<Work = W>,
        L: AccessLog<S>,
    >(
        &mut self,
        c: u32,
        net: &mut N,
        desk: &mut Desk<R>,
        meter: &mut R::Meter,
        log: &mut L,
    ) -> Option<Stopped>
        requires { IsSomeAnd (client_at self.old.peers.clients c) MayGoOn }
        ensures bounded { R.spent meter.new ≤ R.spent meter.old + first_piece }
        ensures offices { self.new.offices ≡ self.old.offices }
        ensures hosts { Serves R.Responder R.JournalResponder.own R.owes (GivesTurnAlone c most_turns (standing N.name self.old) (standing N.name self.new)) result (N.history net.old) desk.old (here N.name self.old) (N.history net.new) desk.new (here N.name self.new) }
    {
        self.peers.serve_one(c, net, desk, meter, log)
    }

    /// Serves a client once, if it may continue, and then the land office.
    fn serve_client<
        N: Network<Socket = S>,
        R: JournalResponder<Reading = J> + WorkingResponder<Work = W>,
        L: AccessLog<S>,
    >(
        &mut self,
        c: u32,
        net: &mut N,
        desk: &mut Desk<R>,
        meter: &mut R::Meter,
        log: &mut L,
    ) -> Result<Option<Stopped>>
        requires { HaveBegun self.old.offices }
        ensures bounded { R.spent meter.new ≤ R.spent meter.old + first_piece }
        ensures begun { HaveBegunUnless (end_of_round result) self.new.offices }
        ensures hosts { Serves R.Responder R.JournalResponder.own R.owes (VisitsClient c most_for_client result (standing N.name self.old) (standing N.name self.new)) (end_of_round result) (N.history net.old) desk.old (here N.name self.old) (N.history net.new) desk.new (here N.name self.new) }
    {
        if !self.peers.clients.is_ready(c) {
            return Ok(None);
        }
        if let Some(stopped) = self.serve_peer(c, net, desk, meter, log) {
            return Ok(Some(stopped));
        }
        self.serve_offices_between(net, desk)
    }

    /// Serves each client that may continue once, and the land office after each of them.
    fn serve_clients<
        N: Network<Socket = S>,
        R: JournalResponder<Reading = J> + WorkingResponder<Work = W>,
        L: AccessLog<S>,
    >(
        &mut self,
        net: &mut N,
        desk: &mut Desk<R>,
        meter: &mut R::Meter,
        log: &mut L,
    ) -> Result<Option<Stopped>>
        requires { HaveBegun self.old.offices }
        ensures bounded { R.spent meter.new ≤ R.spent meter.old + first_pieces }
        ensures begun { HaveBegunUnless (end_of_round result) self.new.offices }
        ensures hosts { Serves R.Responder R.JournalResponder.own R.owes (ServesAll result (standing N.name self.old) (standing N.name self.new)) (end_of_round result) (N.history net.old) desk.old (here N.name self.old) (N.history net.new) desk.new (here N.name self.new) }
    {
        for c in 0..ROOM {
            if let Some(stopped) = self.serve_client(c, net, desk, meter, log)? {
                return Ok(Some(stopped));
            }
        }
        Ok(None)
    }

    /// Goes on with the reply to this client, which is the first in the line, by one piece of work.
    fn work_for<
        N: Network<Socket = S>,
        R: JournalResponder<Reading = J> + WorkingResponder<Work = W>,
        L: AccessLog<S>,
    >(&mut self, c: u32, net: &mut N, desk: &mut Desk<R>, meter: &mut R::Meter, log: &mut L)
        requires { Some c ≡ first_of self.old.peers.line.numbers.items }
        ensures bounded { R.spent meter.new ≤ R.spent meter.old + later_piece }
        ensures offices { self.new.offices ≡ self.old.offices }
        ensures hosts { Serves R.Responder R.JournalResponder.own R.owes (GivesPiece c (standing N.name self.old) (standing N.name self.new)) None (N.history net.old) desk.old (here N.name self.old) (N.history net.new) desk.new (here N.name self.new) }
    {
        self.peers.work_on(c, net, desk, meter, log);
    }

    /// Goes on with the reply to the client that is first in the line, if replies are worked on, and then serves the land office.
    fn work_on_first<
        N: Network<Socket = S>,
        R: JournalResponder<Reading = J> + WorkingResponder<Work = W>,
        L: AccessLog<S>,
    >(
        &mut self,
        net: &mut N,
        desk: &mut Desk<R>,
        meter: &mut R::Meter,
        log: &mut L,
    ) -> Result<Option<Stopped>>
        requires { HaveBegun self.old.offices }
        ensures bounded { R.spent meter.new ≤ R.spent meter.old + later_piece }
        ensures begun { HaveBegunUnless (end_of_round result) self.new.offices }
        ensures hosts { Serves R.Responder R.JournalResponder.own R.owes (WorksOnFirst result (standing N.name self.old) (standing N.name self.new)) (end_of_round result) (N.history net.old) desk.old (here N.name self.old) (N.history net.new) desk.new (here N.name self.new) }
    {
        let Some(c) = self.peers.line.first() else {
            return Ok(None);
        };
        self.work_for(c, net, desk, meter, log);
        self.serve_offices_between(net, desk)
    }

    /// Serves each client that may continue once, and then goes on with one reply of those that are worked on; and the land office after each
    /// of them.
    fn serve_peers<
        N: Network<Socket = S>,
        R: JournalResponder<Reading = J> + WorkingResponder<Work = W>,
        L: AccessLog<S>,
    >(
        &mut self,
        net: &mut N,
        desk: &mut Desk<R>,
        meter: &mut R::Meter,
        log: &mut L,
    ) -> Result<Option<Stopped>>
        requires { HaveBegun self.old.offices }
        ensures bounded { R.spent meter.new ≤ R.spent meter.old + most_pieces }
        ensures begun { HaveBegunUnless (end_of_round result) self.new.offices }
        ensures hosts { Serves R.Responder R.JournalResponder.own R.owes (ServesPeers result (standing N.name self.old) (standing N.name self.new)) (end_of_round result) (N.history net.old) desk.old (here N.name self.old) (N.history net.new) desk.new (here N.name self.new) }
    {
        if let Some(stopped) = self.serve_clients(net, desk, meter, log)? {
            return Ok(Some(stopped));
        }
        self.work_on_first(net, desk, meter, log)
    }

    /// Keeps a socket of the land office under this number, if the network can watch it.
    fn admit_office<
        N: Network<Socket = S>,
        R: JournalResponder<Reading = J> + WorkingResponder<Work = W>,
    >(&mut self, k: usize, mut socket: S, net: &mut N, desk: &mut Desk<R>)
        requires number { k < most_offices }
        requires free { seat_at self.old.offices k ≡ None }
        requires begun { HaveBegun self.old.offices }
        ensures begun { HaveBegun self.new.offices }
        ensures hosts { (before : Option (List Deed)) → Adds before (N.history net.old) (office_came (N.name socket) ∷ [])
            → Serves R.Responder R.JournalResponder.own R.owes (IsAtDoors 1 (standing N.name self.old) (standing N.name self.new)) None before desk.old (here N.name self.old) (N.history net.new) desk.new (here N.name self.new) }
    {
        if net.watch(&mut socket, OFFICE + k).is_err() {
            net.let_go(socket);
            return;
        }
        let office = Office::new(self.peers.alloc, socket, self.peers.now);
        self.offices.put(k, Some(office));
        self.peers.ready.set_office(k, true);
    }

    /// Takes the land office that waits at its door, if one waits and fewer than four connections are open.
    fn take_office<
        N: Network<Socket = S>,
        R: JournalResponder<Reading = J> + WorkingResponder<Work = W>,
    >(&mut self, net: &mut N, desk: &mut Desk<R>)
        requires { HaveBegun self.old.offices }
        ensures begun { HaveBegun self.new.offices }
        ensures hosts { Serves R.Responder R.JournalResponder.own R.owes (IsAtDoors 1 (standing N.name self.old) (standing N.name self.new)) None (N.history net.old) desk.old (here N.name self.old) (N.history net.new) desk.new (here N.name self.new) }
    {
        if !self.peers.ready.office_door {
            return;
        }
        let Some(k) = self.offices.free_number() else {
            return;
        };
        match net.accept_office() {
            Ok(socket) => self.admit_office(k, socket, net, desk),
            Err(error) => self.peers.ready.office_door = !is_blocked(&error),
        }
    }

    /// Drops a connection of the land office, if its answer is overdue.
    fn drop_office<
        N: Network<Socket = S>,
        R: JournalResponder<Reading = J> + WorkingResponder<Work = W>,
    >(&mut self, k: usize, net: &mut N, desk: &mut Desk<R>)
        requires number { k < most_offices }
        requires begun { HaveBegun self.old.offices }
        ensures begun { HaveBegun self.new.offices }
        ensures hosts { Serves R.Responder R.JournalResponder.own R.owes (IsAtDoors 1 (standing N.name self.old) (standing N.name self.new)) None (N.history net.old) desk.old (here N.name self.old) (N.history net.new) desk.new (here N.name self.new) }
    {
        if !self.offices.is_overdue(k, self.peers.now) {
            return;
        }
        if let Some(office) = self.offices.take(k) {
            net.let_go(office.into_socket());
        }
    }

    /// Drops the connections of the land office whose answers are overdue.
    fn drop_offices<
        N: Network<Socket = S>,
        R: JournalResponder<Reading = J> + WorkingResponder<Work = W>,
    >(&mut self, net: &mut N, desk: &mut Desk<R>)
        requires { HaveBegun self.old.offices }
        ensures begun { HaveBegun self.new.offices }
        ensures hosts { Serves R.Responder R.JournalResponder.own R.owes (IsAtDoors most_offices (standing N.name self.old) (standing N.name self.new)) None (N.history net.old) desk.old (here N.name self.old) (N.history net.new) desk.new (here N.name self.new) }
    {
        for k in 0..MOST_OFFICES {
            self.drop_office(k, net, desk);
        }
    }

    /// Drops the connections of the land office whose answers are overdue, and takes one that waits at its door, if there is room.
    fn change_offices<
        N: Network<Socket = S>,
        R: JournalResponder<Reading = J> + WorkingResponder<Work = W>,
    >(&mut self, net: &mut N, desk: &mut Desk<R>)
        requires { HaveBegun self.old.offices }
        ensures begun { HaveBegun self.new.offices }
        ensures hosts { Serves R.Responder R.JournalResponder.own R.owes (IsAtDoors most_offices_changed (standing N.name self.old) (standing N.name self.new)) None (N.history net.old) desk.old (here N.name self.old) (N.history net.new) desk.new (here N.name self.new) }
    {
        self.drop_offices(net, desk);
        self.take_office(net, desk);
    }

    /// Drops the clients that are overdue, and takes those that wait at their door.
    fn change_clients<
        N: Network<Socket = S>,
        R: JournalResponder<Reading = J> + WorkingResponder<Work = W>,
        L: AccessLog<S>,
    >(&mut self, net: &mut N, desk: &mut Desk<R>, log: &mut L)
        ensures offices { self.new.offices ≡ self.old.offices }
        ensures hosts { Serves R.Responder R.JournalResponder.own R.owes (IsAtDoors most_clients_changed (standing N.name self.old) (standing N.name self.new)) None (N.history net.old) desk.old (here N.name self.old) (N.history net.new) desk.new (here N.name self.new) }
    {
        self.peers.drop_overdue(net, desk);
        self.peers.take_clients(net, desk, log);
    }

    /// The most milliseconds of the next wait.
    fn patience(&self) -> u64
        ensures ready { (c : ℕ) → IsSomeAnd (client_at self.now.peers.clients c) MayGoOn → result ≡ 0 }
        ensures line { (c : ℕ) → Some c ≡ first_of self.now.peers.line.numbers.items → result ≡ 0 }
    {
        if any_ready(&self.peers.clients)
            || self.peers.ready.any_office()
            || self.peers.line.first().is_some()
        {
            0
        } else if self.peers.ready.clients_door
            || self.peers.ready.office_door && self.offices.free_number().is_some()
        {
            IMPATIENCE
        } else {
            PATIENCE
        }
    }

    /// Serves each client that may continue once, goes on with one reply, and serves the land office after each of them and once more.
    fn serve_all<
        N: Network<Socket = S>,
        R: JournalResponder<Reading = J> + WorkingResponder<Work = W>,
        L: AccessLog<S>,
    >(
        &mut self,
        net: &mut N,
        desk: &mut Desk<R>,
        meter: &mut R::Meter,
        log: &mut L,
    ) -> Result<Option<Stopped>>
        requires { HaveBegun self.old.offices }
        ensures bounded { R.spent meter.new ≤ R.spent meter.old + most_pieces }
        ensures begun { HaveBegunUnless (end_of_round result) self.new.offices }
        ensures hosts { Serves R.Responder R.JournalResponder.own R.owes (MakesRound most_served result (standing N.name self.old) (standing N.name self.new)) (end_of_round result) (N.history net.old) desk.old (here N.name self.old) (N.history net.new) desk.new (here N.name self.new) }
    {
        let patience = self.patience();
        self.wait(net, desk, patience)?;
        if let Some(stopped) = self.serve_peers(net, desk, meter, log)? {
            return Ok(Some(stopped));
        }
        Ok(self.serve_offices(net, desk))
    }

    /// A round: all that may continue are served, and then those that wait at the doors are taken.
    fn round<
        N: Network<Socket = S>,
        R: JournalResponder<Reading = J> + WorkingResponder<Work = W>,
        L: AccessLog<S>,
    >(
        &mut self,
        net: &mut N,
        desk: &mut Desk<R>,
        meter: &mut R::Meter,
        log: &mut L,
    ) -> Result<Option<Stopped>>
        requires { HaveBegun self.old.offices }
        ensures bounded { R.spent meter.new ≤ R.spent meter.old + most_pieces }
        ensures begun { HaveBegunUnless (end_of_round result) self.new.offices }
        ensures hosts { Serves R.Responder R.JournalResponder.own R.owes (MakesRound most_in_round result (standing N.name self.old) (standing N.name self.new)) (end_of_round result) (N.history net.old) desk.old (here N.name self.old) (N.history net.new) desk.new (here N.name self.new) }
    {
        if let Some(stopped) = self.serve_all(net, desk, meter, log)? {
            return Ok(Some(stopped));
        }
        self.change_clients(net, desk, log);
        self.change_offices(net, desk);
        Ok(None)
    }

    /// Rounds, until hosting ends by one of them.
    pub(crate) fn run<
        N: Network<Socket = S>,
        R: JournalResponder<Reading = J> + WorkingResponder<Work = W>,
        L: AccessLog<S>,
    >(
        &mut self,
        net: &mut N,
        desk: &mut Desk<R>,
        meter: &mut R::Meter,
        log: &mut L,
    ) -> Result<Stopped>
        requires { HaveBegun self.old.offices }
        ensures { Serves R.Responder R.JournalResponder.own R.owes (AreServed (standing N.name self.old)) (end_of_rounds result) (N.history net.old) desk.old (here N.name self.old) (N.history net.new) desk.new (here N.name self.new) }
    {
        for _ in 0..u64::MAX {
            if let Some(stopped) = self.round(net, desk, meter, log)? {
                return Ok(stopped);
            }
        }
        Ok(Stopped::RoundsSpent)
    }
}
