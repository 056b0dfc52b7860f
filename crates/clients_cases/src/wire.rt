//! A network whose peers follow a script, and whose history is known.

use crate::history::{Done, History};
use crate::steps::Step;
use crate::world::{Peer, World};
use cad_network::Network;
use std::alloc::{AllocError, Global};
use std::io::Result;

/// A network whose peers follow a script, and what was done there.
#[derive(Drop)]
pub(crate) struct Wire {
    pub(crate) world: World,
    history: History,
}

impl Wire {
    /// No peers, and these steps.
    pub(crate) fn new(alloc: Global, steps: Vec<Step>) -> Wire {
        Wire {
            world: World::new(alloc, steps),
            history: History::new(alloc),
        }
    }

    /// One more peer, and its number.
    pub(crate) fn add_peer(&mut self) -> std::result::Result<u32, AllocError> {
        self.world.add_peer()
    }

    /// The peer of this number.
    pub(crate) fn peer(&mut self, name: u32) -> Option<&mut Peer> {
        self.world.peers.get_mut(name as usize)
    }
}

impl Network for Wire {
    ghost use Rattle.std.specs.Prelude.{⊤, ◌≤◌, length};
    ghost use Rattle.clients_cases.specs.Histories.{known};

    type Socket = u32;

    ghost history = { λ wire. known wire.history };

    ghost name = { λ socket. socket };

    ghost all_reported = { λ wire. length wire.world.places.items ≤ wire.world.places_at };

    ghost is_drained = { λ _. ⊤ };

    fn accept(&mut self) -> Result<u32> {
        match self.world.take_client() {
            Ok(name) => {
                self.history.add(Done::Came(name));
                Ok(name)
            }
            Err(error) => Err(error),
        }
    }

    fn accept_office(&mut self) -> Result<u32> {
        match self.world.take_office() {
            Ok(name) => {
                self.history.add(Done::OfficeCame(name));
                Ok(name)
            }
            Err(error) => Err(error),
        }
    }

    fn watch(&mut self, _socket: &mut u32, _place: usize) -> Result<()> {
        self.world.watch()
    }

    fn read(&mut self, socket: &u32, buffer: &mut [u8]) -> Result<usize> {
        let read = self.world.read(*socket, buffer);
        self.history.add_read(*socket, buffer, &read);
        read
    }

    fn write(&mut self, socket: &u32, bytes: &[u8]) -> Result<usize> {
        let written = self.world.write(*socket, bytes);
        self.history.add_write(*socket, bytes, &written);
        written
    }

    fn let_go(&mut self, socket: u32) {
        self.world.let_go(socket);
        self.history.add(Done::Left(socket));
    }

    fn wait(&mut self, _milliseconds: u64) -> Result<u64> {
        self.world.wait()
    }

    fn busy_micros(&mut self) -> u64 {
        self.world.busy_micros()
    }

    fn next_ready(&mut self) -> Option<usize> {
        let place = self.world.next_place()?;
        self.history.add(Done::Woke(place));
        Some(place)
    }

    fn resident_bytes(&mut self) -> u64 {
        self.world.resident_bytes()
    }

    fn drain(&mut self) -> Result<()> {
        Ok(())
    }
}
