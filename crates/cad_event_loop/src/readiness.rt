//! The places by which a network reports readiness, and who may continue.

ghost use Rattle.std.specs.Prelude.{◌≡◌, length};
ghost use Rattle.cad_event_loop.specs.Works.{most_offices};

use cad_clients::ROOM;

/// The most connections of the land office that are open.
pub(crate) const MOST_OFFICES: usize = 4;

/// The place of the door at which clients come: the clients' places are their numbers.
pub const CLIENTS_DOOR: usize = ROOM as usize;

/// The place of the door at which the land office comes.
pub const OFFICE_DOOR: usize = ROOM as usize + 1;

/// The place of the land office's first connection. Those of the others follow, by their numbers.
pub const OFFICE: usize = ROOM as usize + 2;

/// How many places there are.
pub const PLACES: usize = OFFICE + MOST_OFFICES;

/// The sockets other than the clients' that may give something. Each is cleared when it says that it gives nothing.
#[derive(Drop)]
pub(crate) struct Readiness {
    pub(crate) clients_door: bool,
    pub(crate) office_door: bool,
    /// The land office's connections by their numbers.
    offices: [bool; MOST_OFFICES],
    pub ghost room: { length offices ≡ most_offices },
}

impl Readiness {
    ghost use Rattle.std.specs.Prelude.{ℕ, nat_eq, ◌<◌, Some, if◌then◌else◌};
    ghost use Rattle.cad_event_loop.specs.inner.Standing.{flag_at};

    pub(crate) fn new() -> Readiness {
        Readiness {
            clients_door: false,
            office_door: false,
            offices: [false; MOST_OFFICES],
        }
    }

    /// Whether the socket of this connection of the land office may give or take something.
    pub(crate) fn office(&self, k: usize) -> bool
        requires { k < most_offices }
        ensures { Some result ≡ flag_at self.now k }
    {
        self.offices[k]
    }

    /// The same, from now on.
    pub(crate) fn set_office(&mut self, k: usize, is_ready: bool)
        requires { k < most_offices }
        ensures { (j : ℕ) → flag_at self.new j ≡ (if nat_eq k j then Some is_ready else flag_at self.old j) }
    {
        self.offices[k] = is_ready;
    }

    /// Whether the socket of one of them may.
    pub(crate) fn any_office(&self) -> bool {
        self.offices.contains(&true)
    }
}
