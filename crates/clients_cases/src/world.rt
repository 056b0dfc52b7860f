//! What happens at a network whose peers follow a script.

ghost use Rattle.std.specs.Io.{ReadsAtMost, WritesAtMost};

use crate::sockets::{Sender, Taker};
use crate::steps::Step;
use std::alloc::{AllocError, Global};
use std::io::{Error, ErrorKind, Read, Result, Write};

/// The other end of a socket.
#[derive(Drop)]
pub(crate) struct Peer {
    pub(crate) sender: Sender,
    pub(crate) taker: Taker,
    /// Its socket was let go.
    pub(crate) is_left: bool,
}

/// Sockets that wait at a door, by the numbers of their peers.
#[derive(Drop)]
struct Door {
    waiting: Vec<u32>,
    at: usize,
    /// How many times the system fails to hand over a socket.
    refusals: u32,
}

impl Door {
    fn new(alloc: Global) -> Door {
        Door {
            waiting: Vec::new(alloc),
            at: 0,
            refusals: 0,
        }
    }

    fn take(&mut self) -> Result<u32> {
        if 0 < self.refusals {
            self.refusals -= 1;
            return Err(Error::from(ErrorKind::Other));
        }
        let Some(name) = self.waiting.get(self.at) else {
            return Err(Error::from(ErrorKind::WouldBlock));
        };
        let name = *name;
        self.at = self.at.saturating_add(1);
        Ok(name)
    }
}

/// Peers that follow a script of steps: those up to the next `End` are done until a wait ends.
#[derive(Drop)]
pub(crate) struct World {
    alloc: Global,
    pub(crate) peers: Vec<Peer>,
    clients: Door,
    offices: Door,
    places: Vec<usize>,
    places_at: usize,
    unwatched: u32,
    seconds: u64,
    steps: Vec<Step>,
    steps_at: usize,
}

impl World {
    ghost use Rattle.std.specs.Prelude.{◌≡◌, ◌≤◌, length, None};

    /// No peers, and these steps.
    pub(crate) fn new(alloc: Global, steps: Vec<Step>) -> World {
        World {
            alloc,
            peers: Vec::new(alloc),
            clients: Door::new(alloc),
            offices: Door::new(alloc),
            places: Vec::new(alloc),
            places_at: 0,
            unwatched: 0,
            seconds: 0,
            steps,
            steps_at: 0,
        }
    }

    /// One more peer, and its number.
    pub(crate) fn add_peer(&mut self) -> std::result::Result<u32, AllocError> {
        let name = u32::try_from(self.peers.len()).unwrap_or(u32::MAX);
        self.peers.push(Peer {
            sender: Sender::new(self.alloc),
            taker: Taker::new(self.alloc),
            is_left: false,
        })?;
        Ok(name)
    }

    fn come(&mut self) -> std::result::Result<(), AllocError> {
        let name = self.add_peer()?;
        self.clients.waiting.push(name)?;
        Ok(())
    }

    fn come_office(&mut self) -> std::result::Result<(), AllocError> {
        let name = self.add_peer()?;
        self.offices.waiting.push(name)?;
        Ok(())
    }

    /// Does a step of a peer.
    fn do_at(peer: &mut Peer, step: &Step) -> std::result::Result<(), AllocError> {
        match step {
            Step::Give(_, bytes) => peer.sender.give(bytes)?,
            Step::Room(_, count) => peer.taker.room = peer.taker.room.saturating_add(*count),
            Step::Hang(_) => peer.sender.has_ended = true,
            Step::Break(_) => {
                peer.sender.is_broken = true;
                peer.taker.is_broken = true;
            }
            _ => {}
        }
        Ok(())
    }

    /// Does a step.
    fn do_step(&mut self, step: &Step) -> std::result::Result<(), AllocError> {
        match step {
            Step::Come => self.come()?,
            Step::Office => self.come_office()?,
            Step::Wake(places) => self.places.extend_from_slice(places)?,
            Step::Second(second) => self.seconds = self.seconds.max(*second),
            Step::Refuse(count) => self.clients.refusals = *count,
            Step::Unwatched(count) => self.unwatched = *count,
            Step::End => {}
            Step::Give(at, _) | Step::Room(at, _) | Step::Hang(at) | Step::Break(at) => {
                if let Some(peer) = self.peers.get_mut(*at) {
                    World::do_at(peer, step)?;
                }
            }
        }
        Ok(())
    }

    /// Does the steps up to the next end. `false` means that there are no more.
    fn do_steps(&mut self) -> std::result::Result<bool, AllocError> {
        let steps = std::mem::replace(&mut self.steps, Vec::new(self.alloc));
        let mut is_ended = false;
        for at in self.steps_at..steps.len() {
            if let Some(step) = steps.get(at) {
                self.do_step(step)?;
                self.steps_at = at.saturating_add(1);
                if let Step::End = step {
                    is_ended = true;
                    break;
                }
            }
        }
        self.steps = steps;
        Ok(is_ended)
    }

    /// Takes a client that waits at the door.
    pub(crate) fn take_client(&mut self) -> Result<u32> {
        self.clients.take()
    }

    /// Takes an office that waits at the other door.
    pub(crate) fn take_office(&mut self) -> Result<u32> {
        self.offices.take()
    }

    /// Whether the network can watch a socket.
    pub(crate) fn watch(&mut self) -> Result<()> {
        if 0 < self.unwatched {
            self.unwatched -= 1;
            return Err(Error::from(ErrorKind::Other));
        }
        Ok(())
    }

    /// Reads what a peer sends.
    pub(crate) fn read(&mut self, name: u32, buffer: &mut [u8]) -> Result<usize>
        ensures { ReadsAtMost result buffer.new }
    {
        match self.peers.get_mut(name as usize) {
            Some(peer) => peer.sender.read(buffer),
            None => Err(Error::from(ErrorKind::Other)),
        }
    }

    /// Writes to a peer.
    pub(crate) fn write(&mut self, name: u32, bytes: &[u8]) -> Result<usize>
        ensures { WritesAtMost result bytes.now }
    {
        match self.peers.get_mut(name as usize) {
            Some(peer) => peer.taker.write(bytes),
            None => Err(Error::from(ErrorKind::Other)),
        }
    }

    /// Its socket was let go.
    pub(crate) fn let_go(&mut self, name: u32) {
        if let Some(peer) = self.peers.get_mut(name as usize) {
            peer.is_left = true;
        }
    }

    /// Does the steps up to the next end, and returns the second.
    pub(crate) fn wait(&mut self) -> Result<u64> {
        self.places.clear();
        self.places_at = 0;
        if self.do_steps()? {
            Ok(self.seconds)
        } else {
            Err(Error::from(ErrorKind::Other))
        }
    }

    /// The microseconds since the last wait: a thousand for each second so far.
    pub(crate) fn busy_micros(&self) -> u64 {
        self.seconds.saturating_mul(1000)
    }

    /// How many bytes of memory are occupied: 256 pages, and one more for each second.
    pub(crate) fn resident_bytes(&self) -> u64 {
        self.seconds.saturating_add(256).saturating_mul(4096)
    }

    /// The next place that the network reports.
    pub(crate) fn next_place(&mut self) -> Option<usize>
        ensures { result ≡ None → length self.new.places.items ≤ self.new.places_at }
    {
        let place = self.places.get(self.places_at)?;
        let place = *place;
        self.places_at = self.places_at.saturating_add(1);
        Some(place)
    }
}
