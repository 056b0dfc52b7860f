//! The clients, and what the network reported about sockets.

ghost use Rattle.std.specs.Prelude.{◌≡◌, ℕ, IsSomeAnd, IsTrue};
ghost use Rattle.cad_clients.specs.Notes.{IsSending, MayGoOn};
ghost use Rattle.cad_clients.specs.Slots.{client_at};
ghost use Rattle.cad_event_loop.specs.Hosting.{end_of_client};
ghost use Rattle.cad_event_loop.specs.inner.Line.{standing_at, IsLineOf};

use crate::counting::{Counted, after_fault, after_opening, after_serving};
use crate::line::Line;
use crate::readiness::{CLIENTS_DOOR, OFFICE, OFFICE_DOOR, PLACES, Readiness};
use crate::stopped::Stopped;
use cad_clients::{AccessLog, Budget, Clients, Ending, Limits, ROOM, Served, tell_fault};
use cad_desk::{Desk, DeskFault};
use cad_network::{Network, is_blocked};
use cad_office_socket::Figures;
use cad_stream::{JournalResponder, WorkingResponder};
use cad_versions::RegisterFault;
use std::alloc::{AllocError, Global};
use std::io::Result;

/// How long clients may take.
const LIMITS: Limits = Limits {
    idle: 60,
    request: 300,
};

/// The most clients that are taken in a round.
const TAKEN: u32 = 64;

/// The clients, and what the network reported about sockets.
#[derive(Drop)]
pub(crate) struct Peers<S, W> {
    pub(crate) clients: Clients<S, W>,
    /// Those whose replies are worked on.
    pub(crate) line: Line,
    pub(crate) ready: Readiness,
    pub(crate) now: u64,
    /// What the service did so far.
    pub(crate) figures: Figures,
    /// In which second the memory was looked at last, if it was.
    measured: Option<u64>,
    pub(crate) alloc: Global,
    pub ghost in_line: { IsLineOf (standing_at clients) line.numbers.items },
}

/// Why hosting ends after serving a client with this result, if it does.
fn end_of(served: Served) -> Option<Stopped>
    ensures { result ≡ end_of_client served }
{
    match served {
        Served::Over(Ending::Refused(DeskFault::Register(RegisterFault::Store))) => Some(
            Stopped::StoreRefused,
        ),
        Served::Over(_) | Served::Stays | Served::Unknown => None,
    }
}

/// Whether a client may continue at once.
pub(crate) fn any_ready<S: Drop, W: Drop>(clients: &Clients<S, W>) -> bool
    ensures { (c : ℕ) → IsSomeAnd (client_at clients.now c) MayGoOn → IsTrue result }
{
    for c in 0..ROOM {
        if clients.is_ready(c) {
            return true;
        }
    }
    false
}

/// Whether a reply that is made is not fully written.
pub(crate) fn any_sending<S: Drop, W: Drop>(clients: &Clients<S, W>) -> bool
    ensures { (c : ℕ) → IsSomeAnd (client_at clients.now c) IsSending → IsTrue result }
{
    for c in 0..ROOM {
        if clients.is_sending(c) {
            return true;
        }
    }
    false
}

impl<S: Drop, W: Drop> Peers<S, W> {
    ghost use Rattle.std.specs.Prelude.{false, nat_eq, min, ◌+◌, ◌-◌, ◌≤◌, List, [], ◌∷◌, length, Option, None, Some, IfOk, IsSome, if◌then◌else◌};
    ghost use Rattle.cad_network.specs.Deeds.{Deed, came, Adds, AddsSome};
    ghost use Rattle.cad_clients.specs.Budgets.{first_piece, later_piece};
    ghost use Rattle.cad_clients.specs.Notes.{IsOverdue};
    ghost use Rattle.cad_event_loop.specs.Hosting.{Hosts, IsClosing, IsTurnedAway, Serves};
    ghost use Rattle.cad_event_loop.specs.inner.Line.{first_of};
    ghost use Rattle.cad_event_loop.specs.inner.Times.{longest};
    ghost use Rattle.cad_event_loop.specs.inner.Standing.{flag_at, standings, told_flag, GivesPiece, GivesTurnAlone, HearsAll, IsAtDoors, IsWoken};
    ghost use Rattle.cad_event_loop.specs.Turns.{most_clients, most_in_turn, office_place, woken};
    ghost use Rattle.cad_clients.specs.Steps.{most_turns};
    ghost use Rattle.cad_office_socket.specs.Counting.{lined};
    ghost use Rattle.cad_event_loop.specs.Works.{held_at, place_of, AtOffices, Same};

    /// No client.
    pub(crate) fn new(alloc: Global) -> std::result::Result<Peers<S, W>, AllocError>
        ensures nobody { IfOk result (λ peers. (c : ℕ) → client_at peers.clients c ≡ None) }
        ensures line { IfOk result (λ peers. peers.line.numbers.items ≡ []) }
    {
        let clients = Clients::new(alloc)?;
        Ok(Peers {
            clients,
            line: Line::new(),
            ready: Readiness::new(),
            now: 0,
            figures: Figures::default(),
            measured: None,
            alloc,
        })
    }

    /// The socket at this place may give or take something.
    fn mark<N: Network<Socket = S>>(&mut self, place: usize)
        ensures woken { (c : ℕ) → standing_at self.new.clients c ≡ (if nat_eq place c then woken (standing_at self.old.clients c) else standing_at self.old.clients c) }
        ensures offices { (k : ℕ) → flag_at self.new.ready k ≡ told_flag (nat_eq place (office_place k)) (flag_at self.old.ready k) }
        ensures held { Same (held_at N.name self.old.clients) (held_at N.name self.new.clients) }
        ensures line { self.new.line ≡ self.old.line }
    {
        if place == CLIENTS_DOOR {
            self.ready.clients_door = true;
        } else if place == OFFICE_DOOR {
            self.ready.office_door = true;
        } else if OFFICE <= place && place < PLACES {
            self.ready.set_office(place - OFFICE, true);
        } else if let Ok(c) = u32::try_from(place) {
            self.clients.mark(c);
        }
    }

    /// Marks the places that the network reports.
    fn note<N: Network<Socket = S>>(&mut self, net: &mut N)
        ensures told { AddsSome (N.history net.old) (N.history net.new) (IsWoken self.old self.new) }
        ensures all { HearsAll N.all_reported (N.history net.old) net.new (N.history net.new) }
        ensures held { Same (held_at N.name self.old.clients) (held_at N.name self.new.clients) }
    {
        for _ in 0..PLACES {
            let Some(place) = net.next_ready() else {
                return;
            };
            self.mark::<N>(place);
        }
    }

    /// How many clients are connected.
    fn client_count(&self) -> u64 {
        let mut count: u64 = 0;
        for c in 0..ROOM {
            if self.clients.is_open(c) {
                count = count.saturating_add(1);
            }
        }
        count
    }

    /// The figures, with those who are connected now and those whose replies are worked on.
    pub(crate) fn counted(&self) -> Figures
        ensures { result.work ≡ (lined self.entry.now.figures (min (length self.entry.now.line.numbers.items) most_in_turn) (length self.entry.now.line.numbers.items - most_in_turn)).work }
    {
        let mut figures = self.figures;
        figures.clients.connected = self.client_count();
        figures.with_line(self.line.in_turn() as u64, self.line.waiting() as u64)
    }

    /// Waits until a socket may give or take something, or until the time is over. Returns the second, and the figures after this look at
    /// the network.
    fn pass_time<N: Network<Socket = S>>(
        &self,
        net: &mut N,
        milliseconds: u64,
    ) -> Result<(u64, Figures)>
        ensures done { Adds (N.history net.old) (N.history net.new) [] }
    {
        let figures = self.figures.with_look(net.busy_micros());
        let seconds = net.wait(milliseconds)?.max(self.now);
        Ok((seconds, figures))
    }

    /// The bytes of memory that the program occupies, which are looked at once in a second.
    fn resident_at<N: Network<Socket = S>>(&self, seconds: u64, net: &mut N) -> u64
        ensures { Adds (N.history net.old) (N.history net.new) [] }
    {
        if self.measured == Some(seconds) {
            return self.figures.resident_bytes;
        }
        net.resident_bytes()
    }

    /// Waits until a socket may give or take something, or until the time is over, and looks at the clock.
    pub(crate) fn wait<N: Network<Socket = S>>(
        &mut self,
        net: &mut N,
        milliseconds: u64,
    ) -> Result<()>
        ensures told { AddsSome (N.history net.old) (N.history net.new) (IsWoken self.old self.new) }
        ensures all { IfOk result (λ _. HearsAll N.all_reported (N.history net.old) net.new (N.history net.new)) }
        ensures held { Same (held_at N.name self.old.clients) (held_at N.name self.new.clients) }
    {
        let (seconds, figures) = self.pass_time(net, milliseconds)?;
        let resident_bytes = self.resident_at(seconds, net);
        self.now = seconds;
        self.measured = Some(seconds);
        self.figures = Figures {
            seconds,
            resident_bytes,
            ..figures
        };
        self.note(net);
        Ok(())
    }

    /// Serves a client that may continue. Returns why hosting ends by that, if it does.
    pub(crate) fn serve_one<
        N: Network<Socket = S>,
        R: JournalResponder + WorkingResponder<Work = W>,
        L: AccessLog<S>,
    >(
        &mut self,
        c: u32,
        net: &mut N,
        desk: &mut Desk<R>,
        meter: &mut R::Meter,
        log: &mut L,
    ) -> Option<Stopped>
        requires { IsSomeAnd (client_at self.old.clients c) MayGoOn }
        ensures bounded { R.spent meter.new ≤ R.spent meter.old + first_piece }
        ensures hosts { (offices : AtOffices R.Reading) → Serves R.Responder R.JournalResponder.own R.owes (GivesTurnAlone c most_turns (standings self.old offices) (standings self.new offices)) result (N.history net.old) desk.old (place_of N.name self.old.clients offices)
            (N.history net.new) desk.new (place_of N.name self.new.clients offices) }
    {
        let mut counted = Counted {
            log,
            figures: self.figures,
        };
        let served = self
            .clients
            .serve(self.alloc, c, self.now, net, desk, meter, &mut counted);
        let Counted { log: _, figures } = counted;
        self.figures = after_serving(figures, served);
        self.line.settle(c, self.clients.is_working(c));
        end_of(served)
    }

    /// Goes on with the reply to this client, which is the first in the line, by one piece of work.
    pub(crate) fn work_on<
        N: Network<Socket = S>,
        R: JournalResponder + WorkingResponder<Work = W>,
        L: AccessLog<S>,
    >(&mut self, c: u32, net: &mut N, desk: &mut Desk<R>, meter: &mut R::Meter, log: &mut L)
        requires { Some c ≡ first_of self.old.line.numbers.items }
        ensures bounded { R.spent meter.new ≤ R.spent meter.old + later_piece }
        ensures hosts { (offices : AtOffices R.Reading) → Serves R.Responder R.JournalResponder.own R.owes (GivesPiece c (standings self.old offices) (standings self.new offices)) None (N.history net.old) desk.old (place_of N.name self.old.clients offices)
            (N.history net.new) desk.new (place_of N.name self.new.clients offices) }
    {
        let mut counting = Counted {
            log,
            figures: self.figures,
        };
        let served = self
            .clients
            .work_on(self.alloc, c, self.now, net, desk, meter, &mut counting);
        let Counted { log: _, figures } = counting;
        self.figures = after_serving(figures, served).with_piece();
        self.line.settle(c, self.clients.is_working(c));
    }

    /// Writes once to a client what is not written yet.
    fn send_one<N: Network<Socket = S>, R: JournalResponder + WorkingResponder<Work = W>>(
        &mut self,
        c: u32,
        net: &mut N,
        desk: &mut Desk<R>,
        meter: &mut R::Meter,
    )
        ensures { (offices : AtOffices R.Reading) → Hosts R.Responder R.JournalResponder.own R.owes IsClosing None (N.history net.old) desk.old (place_of N.name self.old.clients offices)
            (N.history net.new) desk.new (place_of N.name self.new.clients offices) }
    {
        if self.clients.is_ready(c) && self.clients.is_sending(c) {
            let _ = self
                .clients
                .turn(self.alloc, c, Budget::First, self.now, net, desk, meter);
            self.line.settle(c, self.clients.is_working(c));
        }
    }

    /// Writes once to each client what is not written yet. Nothing is read or answered, and no reply is worked on.
    pub(crate) fn send_ready<
        N: Network<Socket = S>,
        R: JournalResponder + WorkingResponder<Work = W>,
    >(&mut self, net: &mut N, desk: &mut Desk<R>, meter: &mut R::Meter)
        ensures { (offices : AtOffices R.Reading) → Hosts R.Responder R.JournalResponder.own R.owes IsClosing None (N.history net.old) desk.old (place_of N.name self.old.clients offices)
            (N.history net.new) desk.new (place_of N.name self.new.clients offices) }
    {
        for c in 0..ROOM {
            self.send_one(c, net, desk, meter);
        }
    }

    /// Drops a client that is overdue.
    fn drop_one<N: Network<Socket = S>, R: JournalResponder + WorkingResponder<Work = W>>(
        &mut self,
        c: u32,
        net: &mut N,
        desk: &mut Desk<R>,
    )
        ensures overdue { IsSomeAnd (client_at self.old.clients c) (IsOverdue self.old.now longest) → client_at self.new.clients c ≡ None }
        ensures kept { ¬ IsSomeAnd (client_at self.old.clients c) (IsOverdue self.old.now longest) → self.new.clients ≡ self.old.clients }
        ensures hosts { (offices : AtOffices R.Reading) → Serves R.Responder R.JournalResponder.own R.owes (IsAtDoors 1 (standings self.old offices) (standings self.new offices)) None (N.history net.old) desk.old (place_of N.name self.old.clients offices)
            (N.history net.new) desk.new (place_of N.name self.new.clients offices) }
    {
        if self.clients.is_overdue(c, self.now, &LIMITS) {
            self.clients.close(c, net, desk);
            self.line.settle(c, false);
        }
    }

    /// Drops the clients that are overdue.
    pub(crate) fn drop_overdue<
        N: Network<Socket = S>,
        R: JournalResponder + WorkingResponder<Work = W>,
    >(&mut self, net: &mut N, desk: &mut Desk<R>)
        ensures { (offices : AtOffices R.Reading) → Serves R.Responder R.JournalResponder.own R.owes (IsAtDoors most_clients (standings self.old offices) (standings self.new offices)) None (N.history net.old) desk.old (place_of N.name self.old.clients offices)
            (N.history net.new) desk.new (place_of N.name self.new.clients offices) }
    {
        for c in 0..ROOM {
            self.drop_one(c, net, desk);
        }
    }

    /// Lets a client go.
    fn part_one<N: Network<Socket = S>, R: JournalResponder + WorkingResponder<Work = W>>(
        &mut self,
        c: u32,
        net: &mut N,
        desk: &mut Desk<R>,
    )
        ensures hosts { (offices : AtOffices R.Reading) → Hosts R.Responder R.JournalResponder.own R.owes IsClosing None (N.history net.old) desk.old (place_of N.name self.old.clients offices)
            (N.history net.new) desk.new (place_of N.name self.new.clients offices) }
        ensures gone { (d : ℕ) → held_at N.name self.new.clients d ≡ (if nat_eq c d then None else held_at N.name self.old.clients d) }
    {
        self.clients.close(c, net, desk);
        self.line.settle(c, false);
    }

    /// Lets all clients go.
    pub(crate) fn part<N: Network<Socket = S>, R: JournalResponder + WorkingResponder<Work = W>>(
        &mut self,
        net: &mut N,
        desk: &mut Desk<R>,
    )
        ensures hosts { (offices : AtOffices R.Reading) → Hosts R.Responder R.JournalResponder.own R.owes IsClosing None (N.history net.old) desk.old (place_of N.name self.old.clients offices)
            (N.history net.new) desk.new (place_of N.name self.new.clients offices) }
        ensures nobody { (c : ℕ) → held_at N.name self.new.clients c ≡ None }
    {
        for c in 0..ROOM {
            self.part_one(c, net, desk);
        }
    }

    /// Writes to a socket that there is no room, and lets it go.
    fn turn_away<N: Network<Socket = S>>(&self, socket: S, net: &mut N)
        ensures { AddsSome (N.history net.old) (N.history net.new) (IsTurnedAway (N.name socket)) }
    {
        tell_fault(net, &socket, DeskFault::Memory);
        net.let_go(socket);
    }

    /// Opens a connection for a socket, if there is a number for it and the network can watch it. A socket that is not opened gets a fixed
    /// head that says so.
    fn admit<
        N: Network<Socket = S>,
        R: JournalResponder + WorkingResponder<Work = W>,
        L: AccessLog<S>,
    >(&mut self, mut socket: S, net: &mut N, desk: &mut Desk<R>, log: &mut L)
        ensures { (offices : AtOffices R.Reading) (before : Option (List Deed)) → Adds before (N.history net.old) (came (N.name socket) ∷ [])
            → Serves R.Responder R.JournalResponder.own R.owes (IsAtDoors 1 (standings self.old offices) (standings self.new offices)) None before desk.old (place_of N.name self.old.clients offices)
            (N.history net.new) desk.new (place_of N.name self.new.clients offices) }
    {
        let Some(c) = self.clients.free_number() else {
            self.figures = after_fault(self.figures, DeskFault::Memory);
            self.turn_away(socket, net);
            return;
        };
        if net.watch(&mut socket, c as usize).is_err() {
            self.figures = after_fault(self.figures, DeskFault::Memory);
            self.turn_away(socket, net);
            return;
        }
        log.open(c, &socket);
        let opened = self
            .clients
            .open(self.alloc, c, self.now, socket, net, desk);
        self.figures = after_opening(self.figures, opened);
    }

    /// Takes the client that waits. `false` means that none waits for now. A client that the system could not hand over is skipped: if
    /// there are not enough descriptors, it waits at the door until the next round.
    fn take_client<
        N: Network<Socket = S>,
        R: JournalResponder + WorkingResponder<Work = W>,
        L: AccessLog<S>,
    >(&mut self, net: &mut N, desk: &mut Desk<R>, log: &mut L) -> bool
        ensures none { result ≡ false → Adds (N.history net.old) (N.history net.new) [] }
        ensures hosts { (offices : AtOffices R.Reading) → Serves R.Responder R.JournalResponder.own R.owes (IsAtDoors 1 (standings self.old offices) (standings self.new offices)) None (N.history net.old) desk.old (place_of N.name self.old.clients offices)
            (N.history net.new) desk.new (place_of N.name self.new.clients offices) }
    {
        match net.accept() {
            Ok(socket) => {
                self.admit(socket, net, desk, log);
                true
            }
            Err(error) => !is_blocked(&error),
        }
    }

    /// Takes the clients that wait, if there are some.
    pub(crate) fn take_clients<
        N: Network<Socket = S>,
        R: JournalResponder + WorkingResponder<Work = W>,
        L: AccessLog<S>,
    >(&mut self, net: &mut N, desk: &mut Desk<R>, log: &mut L)
        ensures { (offices : AtOffices R.Reading) → Serves R.Responder R.JournalResponder.own R.owes (IsAtDoors most_clients (standings self.old offices) (standings self.new offices)) None (N.history net.old) desk.old (place_of N.name self.old.clients offices)
            (N.history net.new) desk.new (place_of N.name self.new.clients offices) }
    {
        if !self.ready.clients_door {
            return;
        }
        for _ in 0..TAKEN {
            if !self.take_client(net, desk, log) {
                self.ready.clients_door = false;
                return;
            }
        }
    }
}
