//! The open connections by their numbers.

ghost use Rattle.std.specs.Prelude.{◌≡◌, length};

use crate::budget::Budget;
use crate::calls::tell_fault;
use crate::client::Client;
use crate::limits::Limits;
use crate::logging::AccessLog;
use crate::served::{Served, is_over};
use crate::turned::Turned;
use cad_desk::{Desk, DeskFault};
use cad_network::Network;
use cad_stream::{Responder, WorkingResponder};
use std::alloc::{AllocError, Global};

/// The most connections that are open.
pub const ROOM: u32 = 64;

/// The most turns of a connection before the others have their turns: a read, a piece for the desk, a piece of work for its reply, and a write.
const TURNS: u32 = 4;

/// The open connections by their numbers, which are below 64.
#[derive(Drop)]
pub struct Clients<S, W> {
    slots: Vec<Option<Client<S, W>>>,
    pub ghost room: { length slots.items ≡ 64 },
}

impl<S: Drop, W: Drop> Clients<S, W> {
    ghost use Rattle.std.specs.Prelude.{ℕ, ◌<◌, ◌≤◌, ◌+◌, ◌*◌, ◌↔◌, None, Some, IsTrue, IsSome, IsSomeAnd, IfOk, IfSome, option_copied, option_map};
    ghost use Rattle.cad_network.specs.Deeds.{AddsSome};
    ghost use Rattle.cad_clients.specs.Budgets.{units_of, first_piece, later_piece};
    ghost use Rattle.cad_clients.specs.Notes.{marked, IsOverdue, IsOwing, IsSending, IsWorking, MayGoOn};
    ghost use Rattle.cad_clients.specs.Slots.{client_at, Changes};
    ghost use Rattle.cad_clients.specs.Steps.{Opens, HasTurn, Closes, IsServed, IsWorkedOn, HasEnough, left_to_do, worked_at};

    /// No connection, and room for 64.
    pub fn new(alloc: Global) -> Result<Clients<S, W>, AllocError>
        ensures { IfOk result (λ clients. (c : ℕ) → client_at clients c ≡ None) }
    {
        let mut slots = Vec::new(alloc);
        for at in 0..ROOM {
            slots.push(None)?;
        }
        Ok(Clients { slots })
    }

    /// Takes a connection out of its slot.
    fn take(&mut self, c: u32) -> Option<Client<S, W>>
        ensures was { result ≡ client_at self.old c }
        ensures is_number { IsSome result → c < 64 }
        ensures rest { Changes self.old self.new c None }
    {
        if c < ROOM {
            self.slots[c as usize].take()
        } else {
            None
        }
    }

    /// Puts a connection into its slot.
    fn put(&mut self, c: u32, client: Client<S, W>)
        requires { c < 64 }
        ensures { Changes self.old self.new c (Some client) }
    {
        self.slots[c as usize] = Some(client);
    }

    /// A number that no connection has, if fewer than 64 are open.
    pub fn free_number(&self) -> Option<u32>
        ensures free { IfSome result (λ c. c < 64 × client_at self.now c ≡ None) }
        ensures full { result ≡ None → (c : ℕ) → c < 64 → IsSome (client_at self.now c) }
    {
        for c in 0..ROOM {
            if self.slots[c as usize].is_none() {
                return Some(c);
            }
        }
        None
    }

    /// Opens a connection by this number, for a socket. If the desk refuses, the fault is reported to the socket, which is let go.
    pub fn open<N: Network<Socket = S>, R: Responder>(
        &mut self,
        alloc: Global,
        c: u32,
        now: u64,
        socket: S,
        net: &mut N,
        desk: &mut Desk<R>,
    ) -> Result<(), DeskFault>
        requires { c < 64 }
        ensures { AddsSome (N.history net.old) (N.history net.new)
            (Opens R.Responder N.name c now socket desk.old self.old result desk.new self.new) }
    {
        match desk.open(c) {
            Ok(()) => {
                self.put(c, Client::new(alloc, socket, now));
                Ok(())
            }
            Err(fault) => {
                tell_fault(net, &socket, fault);
                net.let_go(socket);
                Err(fault)
            }
        }
    }

    /// A turn of the connection of this number, if there is one. If it is over, its number is free, and its socket is let go.
    pub fn turn<N: Network<Socket = S>, R: WorkingResponder<Work = W>>(
        &mut self,
        alloc: Global,
        c: u32,
        budget: Budget,
        now: u64,
        net: &mut N,
        desk: &mut Desk<R>,
        meter: &mut R::Meter,
    ) -> Option<Turned>
        ensures bounded { R.spent meter.new ≤ R.spent meter.old + units_of budget * worked_at result }
        ensures less { result ≡ Some Turned.Worked → left_to_do R.remaining (client_at self.new c) < left_to_do R.remaining (client_at self.old c) }
        ensures turn { AddsSome (N.history net.old) (N.history net.new)
            (HasTurn R.Responder R.owes N.name c now budget desk.old self.old result desk.new self.new) }
    {
        let mut client = self.take(c)?;
        let turned = client.turn(alloc, c, budget, now, net, desk, meter);
        if is_over(turned) {
            net.let_go(client.into_socket());
            return Some(turned);
        }
        self.put(c, client);
        Some(turned)
    }

    /// Closes a connection at the desk, frees its number, and lets its socket go.
    pub fn close<N: Network<Socket = S>, R: Responder>(
        &mut self,
        c: u32,
        net: &mut N,
        desk: &mut Desk<R>,
    )
        ensures { AddsSome (N.history net.old) (N.history net.new)
            (Closes R.Responder N.name c desk.old self.old desk.new self.new) }
    {
        if let Some(client) = self.take(c) {
            let _ = desk.close(c);
            net.let_go(client.into_socket());
        }
    }

    /// The socket of this connection may give or take something.
    pub fn mark(&mut self, c: u32)
        ensures { Changes self.old self.new c (option_map marked (client_at self.old c)) }
    {
        if let Some(mut client) = self.take(c) {
            client.is_ready = true;
            self.put(c, client);
        }
    }

    fn client(&self, c: u32) -> Option<&Client<S, W>>
        ensures { option_copied result ≡ client_at self.now c }
    {
        if c < ROOM {
            self.slots[c as usize].as_ref()
        } else {
            None
        }
    }

    /// Whether the socket of this connection may give or take something, and no reply of it has to be worked on first.
    pub fn is_ready(&self, c: u32) -> bool
        ensures { IsTrue result ↔ IsSomeAnd (client_at self.now c) MayGoOn }
    {
        self.client(c)
            .is_some_and(|client| client.is_ready && !client.channel.is_working())
    }

    /// Whether a connection has this number.
    pub fn is_open(&self, c: u32) -> bool
        ensures { IsTrue result ↔ IsSome (client_at self.now c) }
    {
        self.client(c).is_some()
    }

    /// Whether bytes at hand of this connection have not gone out.
    pub fn is_sending(&self, c: u32) -> bool
        ensures { IsTrue result ↔ IsSomeAnd (client_at self.now c) IsSending }
    {
        self.client(c)
            .is_some_and(|client| !client.channel.sending().is_empty())
    }

    /// Whether bytes at hand of this connection have not gone out, or replies are owed to it.
    pub fn is_owing(&self, c: u32) -> bool
        ensures { IsTrue result ↔ IsSomeAnd (client_at self.now c) IsOwing }
    {
        self.client(c).is_some_and(|client| !client.channel.sending().is_empty()
            || client.channel.owes_more())
    }

    /// Whether the next reply of this connection is worked on: `work_on` goes on with it.
    pub fn is_working(&self, c: u32) -> bool
        ensures { IsTrue result ↔ IsSomeAnd (client_at self.now c) IsWorking }
    {
        self.client(c)
            .is_some_and(|client| client.channel.is_working())
    }

    /// Whether the connection did nothing for too long, or one of its requests takes too long.
    pub fn is_overdue(&self, c: u32, now: u64, limits: &Limits) -> bool
        ensures { IsTrue result ↔ IsSomeAnd (client_at self.now c) (IsOverdue now limits.now) }
    {
        self.client(c)
            .is_some_and(|client| client.is_overdue(now, limits))
    }

    /// Logs what the desk took of a connection, and the reply to it, if it is made.
    fn tell_fed<L: AccessLog<S>>(&self, c: u32, log: &mut L) {
        if let Some(client) = self.client(c) {
            log.note(c, client.channel.last_fed(), client.channel.sending());
        }
    }

    /// Logs a reply that was worked on, if it is made.
    fn tell_made<L: AccessLog<S>>(&self, c: u32, log: &mut L) {
        if let Some(client) = self.client(c) {
            log.note(c, &[], client.channel.sending());
        }
    }

    /// Whether the connection has no turn left in this visit, in which the desk took a piece or not, and a reply was worked on or not.
    fn has_enough(&self, c: u32, has_fed: bool, has_worked: bool) -> bool
        ensures { IsTrue result ↔ HasEnough c has_fed has_worked self.now }
    {
        (has_fed && !self.is_owing(c)) || (has_worked && self.is_working(c))
    }

    /// Serves the connection of this number: some turns, up to one at which its socket gives or takes nothing, and not beyond the reply to
    /// one piece, nor beyond a first piece of work for it. So each other connection waits for at most one such piece and one reply.
    pub fn serve<N: Network<Socket = S>, R: WorkingResponder<Work = W>, L: AccessLog<S>>(
        &mut self,
        alloc: Global,
        c: u32,
        now: u64,
        net: &mut N,
        desk: &mut Desk<R>,
        meter: &mut R::Meter,
        log: &mut L,
    ) -> Served
        ensures bounded { R.spent meter.new ≤ R.spent meter.old + first_piece }
        ensures served { AddsSome (N.history net.old) (N.history net.new)
            (IsServed R.Responder R.owes N.name c now desk.old self.old result desk.new self.new) }
    {
        let mut has_fed = false;
        let mut has_worked = false;
        for _ in 0..TURNS {
            if self.has_enough(c, has_fed, has_worked) {
                return Served::Stays;
            }
            let Some(turned) = self.turn(alloc, c, Budget::First, now, net, desk, meter) else {
                return Served::Unknown;
            };
            match turned {
                Turned::Wrote | Turned::Took => {}
                Turned::Fed => {
                    self.tell_fed(c, log);
                    has_fed = true;
                }
                Turned::Worked => {
                    self.tell_made(c, log);
                    has_worked = true;
                }
                Turned::Waits => return Served::Stays,
                Turned::Over(ending) => return Served::Over(ending),
            }
        }
        Served::Stays
    }

    /// One later piece of work for the next reply of this connection, if it is worked on. `Unknown` means that it is not.
    pub fn work_on<N: Network<Socket = S>, R: WorkingResponder<Work = W>, L: AccessLog<S>>(
        &mut self,
        alloc: Global,
        c: u32,
        now: u64,
        net: &mut N,
        desk: &mut Desk<R>,
        meter: &mut R::Meter,
        log: &mut L,
    ) -> Served
        ensures bounded { R.spent meter.new ≤ R.spent meter.old + later_piece }
        ensures less { result ≡ Served.Stays → left_to_do R.remaining (client_at self.new c) < left_to_do R.remaining (client_at self.old c) }
        ensures worked { AddsSome (N.history net.old) (N.history net.new)
            (IsWorkedOn R.Responder R.owes N.name c now desk.old self.old result desk.new self.new) }
    {
        if !self.is_working(c) {
            return Served::Unknown;
        }
        let Some(turned) = self.turn(alloc, c, Budget::Later, now, net, desk, meter) else {
            return Served::Unknown;
        };
        match turned {
            Turned::Over(ending) => Served::Over(ending),
            Turned::Wrote | Turned::Took | Turned::Fed | Turned::Worked | Turned::Waits => {
                self.tell_made(c, log);
                Served::Stays
            }
        }
    }
}
