//! The land office's connections by their numbers.

ghost use Rattle.std.specs.Prelude.{◌≡◌, length};
ghost use Rattle.cad_event_loop.specs.Works.{most_offices};

use crate::office::Office;
use crate::readiness::MOST_OFFICES;
use std::alloc::{AllocError, Global};

/// The land office's connections by their numbers, which are below `MOST_OFFICES`.
#[derive(Drop)]
pub(crate) struct Offices<S, J> {
    seats: Vec<Option<Office<S, J>>>,
    pub ghost room: { length seats.items ≡ most_offices },
}

impl<S: Drop, J: Drop> Offices<S, J> {
    ghost use Rattle.std.specs.Prelude.{ℕ, ◌<◌, ◌↔◌, None, IfOk, IfSome, IsSome, IsTrue, option_copied};
    ghost use Rattle.cad_event_loop.specs.inner.Offices.{seat_at, IsOfficeSending, Seats};

    /// No connection, and room for four.
    pub(crate) fn new(alloc: Global) -> Result<Offices<S, J>, AllocError>
        ensures { IfOk result (λ offices. (k : ℕ) → seat_at offices k ≡ None) }
    {
        let mut seats = Vec::new(alloc);
        for at in 0..MOST_OFFICES {
            seats.push(None)?;
        }
        Ok(Offices { seats })
    }

    /// Takes a connection out of its place.
    pub(crate) fn take(&mut self, k: usize) -> Option<Office<S, J>>
        requires { k < most_offices }
        ensures was { result ≡ seat_at self.old k }
        ensures rest { Seats self.old self.new k None }
    {
        self.seats[k].take()
    }

    /// Puts a connection into its place, or leaves this free.
    pub(crate) fn put(&mut self, k: usize, office: Option<Office<S, J>>)
        requires { k < most_offices }
        ensures { Seats self.old self.new k office }
    {
        self.seats[k] = office;
    }

    /// A number that no connection has, if fewer than four are open.
    pub(crate) fn free_number(&self) -> Option<usize>
        ensures free { IfSome result (λ k. k < most_offices × seat_at self.now k ≡ None) }
        ensures full { result ≡ None → (k : ℕ) → k < most_offices → IsSome (seat_at self.now k) }
    {
        for k in 0..MOST_OFFICES {
            if self.seats[k].is_none() {
                return Some(k);
            }
        }
        None
    }

    /// Whether no connection is open.
    pub(crate) fn is_empty(&self) -> bool
        ensures { IsTrue result → (k : ℕ) → seat_at self.now k ≡ None }
    {
        for k in 0..MOST_OFFICES {
            if self.seats[k].is_some() {
                return false;
            }
        }
        true
    }

    fn office(&self, k: usize) -> Option<&Office<S, J>>
        ensures { option_copied result ≡ seat_at self.now k }
    {
        if k < MOST_OFFICES {
            self.seats[k].as_ref()
        } else {
            None
        }
    }

    /// Whether an answer of this connection is not fully written.
    pub(crate) fn is_sending(&self, k: usize) -> bool
        ensures { IsTrue result ↔ IsOfficeSending (seat_at self.now k) }
    {
        match self.office(k) {
            Some(office) => office.entry.is_sending(),
            None => false,
        }
    }

    /// Whether an answer of one of them is not fully written.
    pub(crate) fn any_sending(&self) -> bool
        ensures { (k : ℕ) → k < most_offices → IsOfficeSending (seat_at self.now k) → IsTrue result }
    {
        for k in 0..MOST_OFFICES {
            if self.is_sending(k) {
                return true;
            }
        }
        false
    }

    /// Whether the socket of this connection took no byte of an answer for too long.
    pub(crate) fn is_overdue(&self, k: usize, now: u64) -> bool
        ensures { IsTrue result → IsOfficeSending (seat_at self.now k) }
    {
        match self.office(k) {
            Some(office) => office.is_overdue(now),
            None => false,
        }
    }
}
