//! What was done at a network.

ghost use Rattle.std.specs.Prelude.{◌≡◌};

use cad_network::is_blocked;
use std::alloc::Global;
use std::io::{Error, Result};

/// One thing that was done, at sockets that have the numbers of their peers.
#[derive(Drop)]
pub(crate) enum Done {
    /// A client's socket was taken.
    Came(u32),
    /// An office's socket was taken.
    OfficeCame(u32),
    /// The network reported a place.
    Woke(usize),
    /// A read gave this.
    Gave(u32, Vec<u8>),
    /// A write took this.
    Took(u32, Vec<u8>),
    /// A read or a write cannot be done now.
    Blocked(u32),
    /// A read or a write failed.
    Failed(u32),
    /// A socket was let go.
    Left(u32),
}

/// What was done, one thing after the other, as long as there was memory to keep it.
#[derive(Drop)]
pub(crate) struct History {
    alloc: Global,
    done: Vec<Done>,
    is_known: bool,
}

impl History {
    ghost use Rattle.std.specs.Prelude.{[], ◌∷◌, Some};
    ghost use Rattle.std.specs.Io.{ReadsAtMost, WritesAtMost};
    ghost use Rattle.cad_network.specs.Deeds.{gave, took, Adds, failing, reading, writing};
    ghost use Rattle.clients_cases.specs.Histories.{deed_of, known};

    /// Nothing was done.
    pub(crate) fn new(alloc: Global) -> History
        ensures { known result ≡ Some [] }
    {
        History {
            alloc,
            done: Vec::new(alloc),
            is_known: true,
        }
    }

    /// This is done.
    pub(crate) fn add(&mut self, done: Done)
        ensures { Adds (known self.old) (known self.new) (deed_of done ∷ []) }
    {
        if self.done.push(done).is_err() {
            self.is_known = false;
        }
    }

    /// A read gave these bytes.
    fn give(&mut self, name: u32, bytes: &[u8])
        ensures { Adds (known self.old) (known self.new) (gave name bytes.now ∷ []) }
    {
        match Vec::from_slice(self.alloc, bytes) {
            Ok(bytes) => self.add(Done::Gave(name, bytes)),
            Err(_) => self.is_known = false,
        }
    }

    /// A write took these bytes.
    fn take(&mut self, name: u32, bytes: &[u8])
        ensures { Adds (known self.old) (known self.new) (took name bytes.now ∷ []) }
    {
        match Vec::from_slice(self.alloc, bytes) {
            Ok(bytes) => self.add(Done::Took(name, bytes)),
            Err(_) => self.is_known = false,
        }
    }

    /// A read or a write was not done.
    fn fail(&mut self, name: u32, error: &Error)
        ensures { Adds (known self.old) (known self.new) (failing name error.now) }
    {
        if is_blocked(error) {
            self.add(Done::Blocked(name));
        } else {
            self.add(Done::Failed(name));
        }
    }

    /// Adds the result of a read.
    pub(crate) fn add_read(&mut self, name: u32, buffer: &[u8], read: &Result<usize>)
        requires { ReadsAtMost read.now buffer.now }
        ensures { Adds (known self.old) (known self.new) (reading name buffer.now read.now) }
    {
        match read {
            Ok(count) => self.give(name, &buffer[..*count]),
            Err(error) => self.fail(name, error),
        }
    }

    /// Adds the result of a write.
    pub(crate) fn add_write(&mut self, name: u32, bytes: &[u8], written: &Result<usize>)
        requires { WritesAtMost written.now bytes.now }
        ensures { Adds (known self.old) (known self.new) (writing name bytes.now written.now) }
    {
        match written {
            Ok(count) => self.take(name, &bytes[..*count]),
            Err(error) => self.fail(name, error),
        }
    }
}
