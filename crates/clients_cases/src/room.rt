//! The clients, the land office and their sockets, each served when a line asks for it.

use crate::wire::Wire;
use crate::world::Peer;
use cad_clients::{Clients, Limits, NoLog, ROOM, Served};
use cad_desk::Desk;
use cad_memory_ledger::MemoryReading;
use cad_office_socket::{Entry, EntryTurned, Figures};
use std::alloc::{AllocError, Global};
use test_support::{Echo, Echoing, Units};

/// How long clients may take, in seconds.
const LIMITS: Limits = Limits {
    idle: 60,
    request: 300,
};

/// The clients, the land office and their sockets, at one desk.
#[derive(Drop)]
pub(crate) struct Room {
    pub(crate) alloc: Global,
    desk: Desk<Echo>,
    clients: Clients<u32, Echoing>,
    units: Units,
    wire: Wire,
    /// The number of each client's peer.
    names: Vec<Option<u32>>,
    entry: Entry<MemoryReading>,
    office: u32,
    figures: Figures,
    pub(crate) now: u64,
}

/// Adds a place for the peer of each client.
fn push_places(names: &mut Vec<Option<u32>>) -> Result<(), AllocError> {
    for _ in 0..ROOM {
        names.push(None)?;
    }
    Ok(())
}

/// What was written to a peer since the last call.
fn take_written(alloc: Global, peer: Option<&mut Peer>) -> Vec<u8> {
    match peer {
        Some(peer) => std::mem::replace(&mut peer.taker.taken, Vec::new(alloc)),
        None => Vec::new(alloc),
    }
}

impl Room {
    pub(crate) fn new(alloc: Global) -> Result<Room, AllocError> {
        let clients = Clients::new(alloc)?;
        let mut names = Vec::new(alloc);
        push_places(&mut names)?;
        let mut wire = Wire::new(alloc, Vec::new(alloc));
        let office = wire.add_peer()?;
        Ok(Room {
            alloc,
            desk: Desk::new(alloc, Echo::new(alloc)),
            clients,
            units: Units::default(),
            wire,
            names,
            entry: Entry::new(alloc),
            office,
            figures: Figures::default(),
            now: 0,
        })
    }

    /// A client comes, if there is room. Returns its number.
    pub(crate) fn open(&mut self) -> Option<u32> {
        let c = self.clients.free_number()?;
        let name = self.wire.add_peer().ok()?;
        self.clients
            .open(
                self.alloc,
                c,
                self.now,
                name,
                &mut self.wire,
                &mut self.desk,
            )
            .ok()?;
        self.set_name(c, Some(name));
        Some(c)
    }

    /// The number of a client's peer, if the client is there.
    fn name(&self, c: u32) -> Option<u32> {
        match self.names.get(c as usize) {
            Some(name) => *name,
            None => None,
        }
    }

    /// From now on the client's peer has this number, or the client has no peer.
    fn set_name(&mut self, c: u32, name: Option<u32>) {
        if let Some(slot) = self.names.get_mut(c as usize) {
            *slot = name;
        }
    }

    /// The peer of a client.
    pub(crate) fn peer(&mut self, c: u32) -> Option<&mut Peer> {
        let name = self.name(c)?;
        self.wire.peer(name)
    }

    /// The peer of the land office.
    pub(crate) fn office(&mut self) -> Option<&mut Peer> {
        self.wire.peer(self.office)
    }

    /// Whether bytes of a reply of this client that are made are not written.
    pub(crate) fn is_sending(&self, c: u32) -> bool {
        self.clients.is_sending(c)
    }

    /// Whether a reply of this client is worked on.
    pub(crate) fn is_working(&self, c: u32) -> bool {
        self.clients.is_working(c)
    }

    /// Serves a client. Also returns what was written to it since it was served last.
    pub(crate) fn serve(&mut self, c: u32) -> (Served, Vec<u8>) {
        let Some(name) = self.name(c) else {
            return (Served::Unknown, Vec::new(self.alloc));
        };
        let served = self.clients.serve(
            self.alloc,
            c,
            self.now,
            &mut self.wire,
            &mut self.desk,
            &mut self.units,
            &mut NoLog,
        );
        let written = take_written(self.alloc, self.wire.peer(name));
        if served != Served::Stays {
            self.set_name(c, None);
        }
        (served, written)
    }

    /// Goes on with the reply of a client. Also returns how many units of work that was, and what was written to it since it was served last.
    pub(crate) fn work_on(&mut self, c: u32) -> (Served, u64, Vec<u8>) {
        let before = self.units.done;
        let served = self.clients.work_on(
            self.alloc,
            c,
            self.now,
            &mut self.wire,
            &mut self.desk,
            &mut self.units,
            &mut NoLog,
        );
        let written = match self.name(c) {
            Some(name) => take_written(self.alloc, self.wire.peer(name)),
            None => Vec::new(self.alloc),
        };
        if matches!(served, Served::Over(_)) {
            self.set_name(c, None);
        }
        (served, self.units.done.saturating_sub(before), written)
    }

    /// Drops a client, if it did nothing for too long or a request of it takes too long.
    pub(crate) fn drop_overdue(&mut self, c: u32) -> bool {
        if !self.clients.is_overdue(c, self.now, &LIMITS) {
            return false;
        }
        self.clients.close(c, &mut self.wire, &mut self.desk);
        self.set_name(c, None);
        true
    }

    /// A turn of the land office. Also returns what was written to it since its last turn.
    pub(crate) fn serve_office(&mut self) -> (EntryTurned, Vec<u8>) {
        let turned = self.entry.turn(
            self.alloc,
            &mut self.wire,
            &self.office,
            &mut self.desk,
            &self.figures,
        );
        self.figures = self.figures.with_turn(&turned);
        let written = take_written(self.alloc, self.wire.peer(self.office));
        (turned, written)
    }
}
