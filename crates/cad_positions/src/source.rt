//! Trees of sources, and how they are made.

use crate::front::Front;
use crate::listed::Listed;
use std::alloc::{AllocError, Global};

/// A tree of positions that are left.
#[derive(Debug, Drop)]
#[cycle(source)]
pub enum Source<'a> {
    /// No positions.
    Empty,
    /// All from one on, below another.
    Scan {
        /// The first.
        at: u32,
        /// Above the last.
        end: u32,
    },
    /// Those of a list.
    Listed(Listed),
    /// Those of a source whose ranks lie in a range.
    Tested(Tested<'a>),
    /// Those of two sources that both have.
    Met(Met<'a>),
    /// Those of either.
    Joined(Joined<'a>),
}

/// The positions of a source below `end` whose ranks lie from `from` to below `to`. `ranks` holds the rank of each position.
#[derive(Debug, Drop)]
#[cycle(source)]
pub struct Tested<'a> {
    pub(crate) source: Box<Source<'a>>,
    pub(crate) end: u32,
    pub(crate) ranks: &'a [u32],
    pub(crate) from: u32,
    pub(crate) to: u32,
}

/// The positions that both have.
#[derive(Debug, Drop)]
#[cycle(source)]
pub struct Met<'a> {
    pub(crate) first: Box<Source<'a>>,
    pub(crate) second: Box<Source<'a>>,
}

/// The positions of either. A side whose front is known is settled again only when that front is passed.
#[derive(Debug, Drop)]
#[cycle(source)]
pub struct Joined<'a> {
    pub(crate) first: Box<Source<'a>>,
    pub(crate) first_front: Front,
    pub(crate) second: Box<Source<'a>>,
    pub(crate) second_front: Front,
}

impl<'a> Source<'a> {
    ghost use Rattle.std.specs.Prelude.{◌≡◌, ◌&&◌, ◌||◌, ℕ, IfOk, nat_lt};
    ghost use Rattle.std.specs.List.Sorted.{IsStrictlyIncreasing};
    ghost use Rattle.cad_positions.specs.Has.{has};
    ghost use Rattle.cad_positions.specs.Held.{has_rank, is_among};

    /// All positions below `end`.
    pub fn scan(end: u32) -> Source<'a>
        ensures { (k : ℕ) → has result k ≡ nat_lt k end }
    {
        Source::Scan { at: 0, end }
    }

    /// The positions of a list that ascends.
    pub fn listed(rows: Vec<u32>) -> Source<'a>
        requires { IsStrictlyIncreasing rows.items }
        ensures { (k : ℕ) → has result k ≡ is_among rows.items k }
    {
        Source::Listed(Listed::of(rows))
    }

    /// The positions below `end` of a source whose ranks lie from `from` to below `to`. An error means out of memory.
    pub fn tested(
        alloc: Global,
        source: Source<'a>,
        end: u32,
        ranks: &'a [u32],
        from: u32,
        to: u32,
    ) -> Result<Source<'a>, AllocError>
        ensures { IfOk result (λ tested. (k : ℕ) → has tested k ≡ (has source.entry k && has_rank end ranks.now from to k)) }
    {
        let source = Box::new(alloc, source)?;
        Ok(Source::Tested(Tested {
            source,
            end,
            ranks,
            from,
            to,
        }))
    }

    /// The positions that both have. An error means out of memory.
    pub(crate) fn met(
        alloc: Global,
        first: Source<'a>,
        second: Source<'a>,
    ) -> Result<Source<'a>, AllocError>
        ensures { IfOk result (λ met. (k : ℕ) → has met k ≡ (has first.entry k && has second.entry k)) }
    {
        let first = Box::new(alloc, first)?;
        let second = Box::new(alloc, second)?;
        Ok(Source::Met(Met { first, second }))
    }

    /// The positions of either. An error means out of memory.
    pub(crate) fn joined(
        alloc: Global,
        first: Source<'a>,
        second: Source<'a>,
    ) -> Result<Source<'a>, AllocError>
        ensures { IfOk result (λ joined. (k : ℕ) → has joined k ≡ (has first.entry k || has second.entry k)) }
    {
        let first = Box::new(alloc, first)?;
        let second = Box::new(alloc, second)?;
        Ok(Source::Joined(Joined {
            first,
            first_front: Front::Unknown,
            second,
            second_front: Front::Unknown,
        }))
    }
}
