//! Positions in an order, and their ranks.

ghost use Rattle.std.specs.Prelude.{◌≡◌, ◌≤◌, ◌<◌, ℕ, IfOk, length, All};
ghost use Rattle.cad_positions.specs.Hits.{hits};
ghost use Rattle.cad_positions.specs.Rankings.{AreInverse, positions_between};

use crate::Found;
use std::alloc::{AllocError, Global};

/// Positions in the order of their values, and the rank that each position has in it; a position without a value has none.
#[derive(Drop)]
pub struct Ranking {
    places: Vec<u32>,
    ranks: Vec<u32>,
    /// Each position of the order is in it at the place that is its rank.
    pub ghost inverse: { AreInverse places.items ranks.items },
    /// Positions have 32 bits.
    pub ghost small: { length ranks.items ≤ 4294967295 },
    /// The order has each position at most once.
    pub ghost no_more: { length places.items ≤ length ranks.items },
}

// The rank of each position; a position that is not in the order has no rank.
fn ranks_of(alloc: Global, places: &[u32], count: usize) -> Result<Vec<u32>, AllocError>
    requires small { length places.now ≤ 4294967295 }
    requires known { All (λ p. p < count) places.now }
    requires distinct { (v : ℕ) → hits v places.now ≤ 1 }
    ensures inverse { IfOk result (λ v. AreInverse places.now v.items) }
    ensures counted { IfOk result (λ v. length v.items ≡ count) }
{
    let mut ranks = vec![in alloc; u32::MAX; count]?;
    for (rank, place) in places.iter().enumerate() {
        ranks[*place as usize] = rank as u32;
    }
    Ok(ranks)
}

impl Ranking {
    ghost use Rattle.cad_positions.specs.Parts.{places_in, ranks_in};

    /// The ranking of `count` positions, of which the given ones are ordered as given. An error means out of memory.
    pub fn new(alloc: Global, places: Vec<u32>, count: usize) -> Result<Ranking, AllocError>
        requires small { count ≤ 4294967295 }
        requires fewer { length places.items ≤ count }
        requires known { All (λ p. p < count) places.items }
        requires distinct { (v : ℕ) → hits v places.items ≤ 1 }
        ensures places { IfOk result (λ r. places_in r ≡ places.items) }
        ensures counted { IfOk result (λ r. length (ranks_in r) ≡ count) }
    {
        let ranks = ranks_of(alloc, &places, count)?;
        Ok(Ranking { places, ranks })
    }

    /// How many positions the order has.
    pub fn ranked(&self) -> u32
        ensures { result ≡ length (places_in self.now) }
    {
        self.places.len() as u32
    }

    /// The positions whose ranks lie from `low` on, below `high`.
    pub fn found(&self, low: u32, high: u32) -> Found<'_>
        requires ordered { low ≤ high }
        requires within { high ≤ length (places_in self.now) }
        ensures { result ≡ positions_between (ranks_in self.now) low high }
    {
        Found::new(&self.places, &self.ranks, low, high)
    }
}
