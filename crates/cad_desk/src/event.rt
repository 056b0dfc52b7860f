//! What happens to a desk, and what it answers.

use cad_stream::Part;
use cad_versions::Command;
use std::marker::Model;

/// Bytes that go out to a connection. Contracts see the list of them. So they can also name bytes that are owed and were not made yet.
#[derive(Debug, Drop)]
pub struct SentBytes {
    bytes: Vec<u8>,
}

impl Model for SentBytes {
    ghost use Rattle.std.specs.Prelude.{ℕ, List};

    ghost Value = { List ℕ };

    ghost view = { λ s. s.bytes.items };
}

impl SentBytes {
    ghost use Rattle.std.specs.Prelude.{◌≡◌};

    /// These bytes.
    pub fn new(bytes: Vec<u8>) -> SentBytes
        ensures { result ≡ bytes.items }
    {
        SentBytes { bytes }
    }

    /// The bytes, to be read.
    pub fn as_slice(&self) -> &[u8]
        ensures { result.now ≡ self.now }
    {
        &self.bytes
    }

    /// The bytes themselves.
    pub fn into_bytes(self) -> Vec<u8>
        ensures { result.items ≡ self }
    {
        self.bytes
    }
}

/// What happens to a desk. Connections are identified by their numbers.
#[derive(Debug, Drop)]
pub enum Event {
    /// A connection opens.
    Open(u32),
    /// A connection sends these bytes.
    Bytes(u32, Vec<u8>),
    /// A connection closes.
    Close(u32),
    /// The land office enters a command.
    Office(Command),
}

/// What goes out to a connection for a piece of its bytes.
#[derive(Debug, Drop)]
pub struct Outgoing {
    /// The replies to the requests that the piece completed, one after the other.
    pub bytes: SentBytes,
    /// Whether the connection ended with the last of them.
    pub ends: bool,
}

/// What is owed to a connection for a piece of its bytes.
#[derive(Debug, Drop)]
pub struct Owing<W> {
    /// The replies to the requests that the piece completed, or what is left for them, one after the other.
    pub parts: Vec<Part<W>>,
    /// Whether the connection ends with the last of them.
    pub ends: bool,
}

/// What a desk answers.
#[derive(Debug, Drop)]
pub enum Reply {
    /// The connection is open.
    Opened,
    /// The connection is closed.
    Closed,
    /// What goes out to the connection.
    Sent {
        /// The replies to the requests that these bytes completed, one after the other.
        bytes: SentBytes,
        /// Whether the connection ended with the last of them.
        ends: bool,
    },
    /// The command was accepted, and this is the revision after it.
    Entered(u64),
}
