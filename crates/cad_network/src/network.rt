//! Sockets that never wait.

use std::io::Result;

/// A network that takes sockets at its doors. None of its calls waits for a peer, except `wait` and `drain`.
pub trait Network {
    ghost use Rattle.std.specs.Prelude.{◌≡◌, ℕ, List, [], ◌∷◌, Option, None, IsOk};
    ghost use Rattle.std.specs.Io.{ReadsAtMost, WritesAtMost};
    ghost use Rattle.cad_network.specs.Deeds.{Deed, left, Adds, accepting, accepting_office, reading, waking, writing};

    /// A socket that was taken at a door.
    type Socket: Drop;

    // What was done at its sockets so far, as long as that is known.
    ghost history: { Self → Option (List Deed) };

    // The number by which the history identifies a socket.
    ghost name: { Self.Socket → ℕ };

    // Each socket that the last wait found is reported.
    ghost all_reported: { Self → Type 0 };

    // The peers of sockets that were let go have what was written to them, or the time for that is over.
    ghost is_drained: { Self → Type 0 };

    /// Takes a client's socket.
    fn accept(&mut self) -> Result<Self::Socket>
        ensures { Adds (history self.old) (history self.new) (accepting name result) };

    /// Takes the land office's socket.
    fn accept_office(&mut self) -> Result<Self::Socket>
        ensures { Adds (history self.old) (history self.new) (accepting_office name result) };

    /// From now on, reports by this place when this socket may give or take something.
    fn watch(&mut self, socket: &mut Self::Socket, place: usize) -> Result<()>
        ensures same { name socket.new ≡ name socket.old }
        ensures done { Adds (history self.old) (history self.new) [] };

    /// One read.
    fn read(&mut self, socket: &Self::Socket, buffer: &mut [u8]) -> Result<usize>
        ensures bound { ReadsAtMost result buffer.new }
        ensures done { Adds (history self.old) (history self.new) (reading (name socket.now) buffer.new result) };

    /// One write.
    fn write(&mut self, socket: &Self::Socket, bytes: &[u8]) -> Result<usize>
        ensures bound { WritesAtMost result bytes.now }
        ensures done { Adds (history self.old) (history self.new) (writing (name socket.now) bytes.now result) };

    /// Lets a socket go. What its peer still sends is dropped.
    fn let_go(&mut self, socket: Self::Socket)
        ensures { Adds (history self.old) (history self.new) (left (name socket) ∷ []) };

    /// Waits until a socket may give or take something, or for this many milliseconds. The result is the seconds since the start.
    fn wait(&mut self, milliseconds: u64) -> Result<u64>
        ensures { Adds (history self.old) (history self.new) [] };

    /// The microseconds since the last wait was over, or 0 if the system does not say.
    fn busy_micros(&mut self) -> u64
        ensures { Adds (history self.old) (history self.new) [] };

    /// The place of a socket that may give or take something, one of those that the last wait found and that were not reported since.
    fn next_ready(&mut self) -> Option<usize>
        ensures done { Adds (history self.old) (history self.new) (waking result) }
        ensures none { result ≡ None → all_reported self.new };

    /// How many bytes of memory the program occupies, or 0 if the system does not say.
    fn resident_bytes(&mut self) -> u64
        ensures { Adds (history self.old) (history self.new) [] };

    /// Waits until the peers of sockets that were let go have what was written to them.
    fn drain(&mut self) -> Result<()>
        ensures done { Adds (history self.old) (history self.new) [] }
        ensures drained { IsOk result → is_drained self.new };
}
