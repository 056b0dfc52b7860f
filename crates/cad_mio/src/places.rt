//! The places of the doors.

/// The places by which a network reports its doors, and how many places there are. `Network::watch` is given those of other sockets.
#[derive(Clone, Copy)]
pub struct Places {
    /// The place of the door at which clients come.
    pub clients_door: usize,
    /// The place of the door at which the land office comes.
    pub office_door: usize,
    /// How many places there are, with those of the sockets that were taken. At most so many are reported after a wait.
    pub count: usize,
}
