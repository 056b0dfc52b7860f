//! The desk.

use crate::event::{Event, Outgoing, Owing, Reply, SentBytes};
use crate::fault::DeskFault;
use cad_stream::{
    Connection, Fed, FedBegun, JournalResponder, Responder, Summary, WorkingResponder,
};
use cad_versions::{Command, RegisterFault};
use std::alloc::Global;
use std::collections::HashMap;

/// The most connections that may be open.
const CONNECTION_ROOM: usize = 64;

/// The open connections, and the responder that answers their requests.
pub struct Desk<R: Responder> {
    responder: R,
    connections: HashMap<u32, Connection>,
    alloc: Global,
}

impl<R: Responder + Drop> Drop for Desk<R> {
    fn drop(self) {
        let Desk {
            responder: _,
            connections: _,
            alloc: _,
        } = self;
    }
}

impl<R: Responder> Desk<R> {
    ghost use Rattle.std.specs.Prelude.{◌≡◌, ℕ, None};
    ghost use Rattle.cad_desk.specs.declared.event.Event.TheVariants.{Open, Bytes, Close, Office};
    ghost use Rattle.cad_desk.specs.Connections.{rest_at};
    ghost use Rattle.cad_desk.specs.Calls.{opened, sent, closed, entered};
    ghost use Rattle.cad_desk.specs.Desks.{responder_of, connections_of, ChecksAtDesk, Steps};

    /// A desk without connections.
    pub fn new(alloc: Global, responder: R) -> Desk<R>
        ensures responder { responder_of result ≡ responder }
        ensures empty { (c : ℕ) → rest_at (connections_of result) c ≡ None }
    {
        Desk {
            responder,
            connections: HashMap::new(alloc),
            alloc,
        }
    }

    /// The responder that answered the requests. All connections are dropped.
    pub fn release(self) -> R
        ensures { result ≡ responder_of self }
    {
        let Desk {
            responder,
            connections: _,
            alloc: _,
        } = self;
        responder
    }

    /// Opens a connection of this number, from 0 to `u32::MAX`. At most 64 are open at once.
    pub fn open(&mut self, c: u32) -> Result<(), DeskFault>
        ensures { Steps R.Responder self.old (Open c) (opened result) self.new }
    {
        if self.connections.contains_key(&c) {
            return Err(DeskFault::KnownConnection);
        }
        if self.connections.len() >= CONNECTION_ROOM {
            return Err(DeskFault::TooManyConnections);
        }
        let connection = Connection::new(self.alloc);
        match self.connections.insert(c, connection) {
            Ok(_) => Ok(()),
            Err(_) => Err(DeskFault::Memory),
        }
    }

    /// Takes a piece of a connection's bytes. If the piece is refused, the connection is closed.
    pub fn feed(&mut self, c: u32, piece: Vec<u8>) -> Result<Outgoing, DeskFault>
        ensures { Steps R.Responder self.old (Bytes c piece) (sent result) self.new }
    {
        let Some(connection) = self.connections.remove(&c) else {
            return Err(DeskFault::UnknownConnection);
        };
        let Fed { bytes, connection } = match connection.feed(
            self.alloc,
            piece,
            &mut self.responder,
        ) {
            Ok(fed) => fed,
            Err(fault) => return Err(DeskFault::from(fault)),
        };
        let bytes = SentBytes::new(bytes);
        match connection {
            None => Ok(Outgoing { bytes, ends: true }),
            Some(connection) => match self.connections.insert(c, connection) {
                Ok(_) => Ok(Outgoing { bytes, ends: false }),
                Err(_) => Err(DeskFault::Memory),
            },
        }
    }

    /// Closes a connection: its bytes no longer become a request.
    pub fn close(&mut self, c: u32) -> Result<(), DeskFault>
        ensures { Steps R.Responder self.old (Close c) (closed result) self.new }
    {
        match self.connections.remove(&c) {
            Some(_) => Ok(()),
            None => Err(DeskFault::UnknownConnection),
        }
    }

    /// Enters a command of the land office, and gives the revision after it.
    pub fn enter(&mut self, command: Command) -> Result<u64, RegisterFault>
        ensures { Steps R.Responder self.old (Office command) (entered result) self.new }
    {
        let revision = self.responder.enter(command)?;
        Ok(revision)
    }

    /// What would be answered to a command of the land office, which is not entered.
    pub fn check(&mut self, command: &Command) -> Result<u64, RegisterFault>
        ensures { ChecksAtDesk R.Responder self.old command.now result self.new }
    {
        self.responder.check(command)
    }

    /// Takes an event, and answers it completely. Bytes that are refused close their connection; everything else stays as it was.
    pub fn step(&mut self, event: Event) -> Result<Reply, DeskFault>
        ensures { Steps R.Responder self.old event result self.new }
    {
        match event {
            Event::Open(c) => {
                self.open(c)?;
                Ok(Reply::Opened)
            }
            Event::Bytes(c, piece) => {
                let Outgoing { bytes, ends } = self.feed(c, piece)?;
                Ok(Reply::Sent { bytes, ends })
            }
            Event::Close(c) => {
                self.close(c)?;
                Ok(Reply::Closed)
            }
            Event::Office(command) => match self.enter(command) {
                Ok(revision) => Ok(Reply::Entered(revision)),
                Err(fault) => Err(DeskFault::from(fault)),
            },
        }
    }
}

impl<R: WorkingResponder> Desk<R> {
    ghost use Rattle.cad_desk.specs.declared.event.Event.TheVariants.{Bytes};
    ghost use Rattle.cad_desk.specs.Calls.{begun};
    ghost use Rattle.cad_desk.specs.Desks.{Steps};

    /// Takes a piece of a connection's bytes, and begins the requests that it completes. The event is over with that: it is answered with the
    /// bytes that are owed, with the commands in force now. If the piece is refused, the connection is closed.
    pub fn begin(&mut self, c: u32, piece: Vec<u8>) -> Result<Owing<R::Work>, DeskFault>
        ensures { Steps R.Responder self.old (Bytes c piece) (begun R.owes result) self.new }
    {
        let Some(open) = self.connections.remove(&c) else {
            return Err(DeskFault::UnknownConnection);
        };
        let FedBegun { parts, connection } = match open.begin(
            self.alloc,
            piece,
            &mut self.responder,
        ) {
            Ok(begun) => begun,
            Err(refused) => return Err(DeskFault::from(refused)),
        };
        match connection {
            None => Ok(Owing { parts, ends: true }),
            Some(connection) => match self.connections.insert(c, connection) {
                Ok(_) => Ok(Owing { parts, ends: false }),
                Err(_) => Err(DeskFault::Memory),
            },
        }
    }
}

impl<R: JournalResponder> Desk<R> {
    ghost use Rattle.std.specs.Prelude.{◌≡◌};
    ghost use Rattle.cad_versions.specs.Journals.{GivesJournal};
    ghost use Rattle.cad_desk.specs.Journals.{BeginsAtDesk, ReadsAtDesk};
    ghost use Rattle.cad_desk.specs.Desks.{SummarizesDesk};

    /// Begins to read the commands after a revision, up to the newest. A revision above the newest is `UnknownRevision`.
    pub fn begin_journal(&self, behind: u64) -> Result<R::Reading, RegisterFault>
        ensures { BeginsAtDesk R.Responder R.JournalResponder.own self.now behind result }
    {
        self.responder.begin_journal(behind)
    }

    /// What the register holds, in numbers. Nothing is read for it.
    pub fn summary(&self) -> Summary
        ensures { SummarizesDesk R.Responder self.now result }
    {
        self.responder.summary()
    }

    /// Reads the next rows of a journal, at most `most`, and returns whether all were read. Events may have been answered since the last rows
    /// were read.
    pub fn read_on(&mut self, reading: &mut R::Reading, most: u32) -> Result<bool, RegisterFault>
        ensures { ReadsAtDesk R.Responder R.JournalResponder.own self.old reading.old most result self.new reading.new }
    {
        self.responder.read_on(reading, most)
    }

    /// The commands of a journal, once all its rows were read.
    pub fn journal(&self, reading: R::Reading) -> Result<Vec<Command>, RegisterFault>
        requires { R.rows_left reading ≡ 0 }
        ensures { GivesJournal R.has_read R.behind_of R.newest_of reading result }
    {
        R::commands(reading, self.alloc)
    }
}
