//! The positions between two ranks.

ghost use Rattle.std.specs.Prelude.{◌≡◌, ◌≤◌, IfOk, length, slice_range};
ghost use Rattle.std.specs.List.Sorted.{IsPermutation, IsNonDecreasing};
ghost use Rattle.cad_positions.specs.Rankings.{positions_between, IsPart};
ghost use Rattle.cad_positions.specs.PositionSets.{Keeps};

use crate::positions::Positions;
use std::alloc::{AllocError, Global};
use std::marker::Model;

/// The positions whose ranks lie from one on, below another. Contracts see the list of them, which ascends.
#[derive(Drop)]
pub struct Found<'a> {
    places: &'a [u32],
    ranks: &'a [u32],
    low: u32,
    high: u32,
}

impl<'a> Model for Found<'a> {
    ghost use Rattle.std.specs.Prelude.{List, ℕ};
    ghost use Rattle.cad_positions.specs.Rankings.{positions_between, IsPart};

    ghost Value = { List ℕ };

    ghost view = { λ f. positions_between f.ranks.now f.low f.high };

    ghost invariant = { λ f. IsPart f.places.now f.ranks.now f.low f.high };
}

// The positions at the places from `low` on, below `high`, in ascending order.
fn sorted(alloc: Global, places: &[u32], low: u32, high: u32) -> Result<Vec<u32>, AllocError>
    requires ordered { low ≤ high }
    requires within { high ≤ length places.now }
    ensures same { IfOk result (λ v. IsPermutation (slice_range places.now low high) v.items) }
    ensures ascends { IfOk result (λ v. IsNonDecreasing v.items) }
{
    let mut found = Vec::from_slice(alloc, &places[low as usize..high as usize])?;
    found.sort_unstable();
    Ok(found)
}

impl<'a> Found<'a> {
    pub(crate) fn new(places: &'a [u32], ranks: &'a [u32], low: u32, high: u32) -> Found<'a>
        requires { IsPart places.now ranks.now low high }
        ensures { result ≡ positions_between ranks.now low high }
    {
        Found {
            places,
            ranks,
            low,
            high,
        }
    }

    /// How many positions there are. No memory is taken.
    pub fn count(&self) -> u32
        ensures { result ≡ length self.now }
    {
        self.high - self.low
    }

    /// The positions in the order of their ranks. No memory is taken.
    pub fn by_rank(&self) -> &'a [u32]
        ensures { IsPermutation self.now result.now }
    {
        &self.places[self.low as usize..self.high as usize]
    }

    /// The positions in the form that is best walked: few in a sorted list, many by their ranks. An error means out of memory.
    pub fn positions(&self, alloc: Global) -> Result<Positions<'a>, AllocError>
        ensures { IfOk result (Keeps self.now) }
    {
        if self.are_few() {
            let found = sorted(alloc, self.places, self.low, self.high)?;
            Ok(Positions::Listed(found))
        } else {
            Ok(Positions::Ranked {
                ranks: self.ranks,
                from: self.low,
                to: self.high,
            })
        }
    }

    // Whether they are few among all positions, so that sorting them is cheaper than looking at each position.
    fn are_few(&self) -> bool {
        (self.high - self.low) as usize <= self.ranks.len() / 64
    }
}
