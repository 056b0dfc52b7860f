//! Many sources as one tree. It is built of pairs of pairs, so that it stays flat; no contract says how flat.

ghost use Rattle.std.specs.Prelude.{◌≡◌, ◌≤◌, ◌<◌, ◌+◌, ◌*◌, ℕ, IfOk, length};
ghost use Rattle.cad_positions.specs.Has.{has, has_any, has_all};

use crate::source::Source;
use std::alloc::{AllocError, Global};

/// The sources joined in pairs.
fn joined_pairs<'a>(alloc: Global, sources: Vec<Source<'a>>) -> Result<Vec<Source<'a>>, AllocError>
    ensures any { IfOk result (λ pairs. (k : ℕ) → has_any pairs.items k ≡ has_any sources.entry.items k) }
    ensures fewer { IfOk result (λ pairs. 2 * length pairs.items ≤ length sources.entry.items + 1) }
{
    let mut sources = sources;
    let mut pairs = Vec::new(alloc);
    while let Some(first) = sources.pop() {
        match sources.pop() {
            None => pairs.push(first)?,
            Some(second) => {
                let joined = Source::joined(alloc, first, second)?;
                pairs.push(joined)?;
            }
        }
    }
    Ok(pairs)
}

/// The positions that some of the sources have. Without sources there are no positions. An error means out of memory.
pub fn join_all<'a>(alloc: Global, sources: Vec<Source<'a>>) -> Result<Source<'a>, AllocError>
    ensures { IfOk result (λ joined. (k : ℕ) → has joined k ≡ has_any sources.entry.items k) }
{
    let mut sources = sources;
    while sources.len() > 1 {
        sources = joined_pairs(alloc, sources)?;
    }
    Ok(sources.pop().unwrap_or(Source::Empty))
}

/// The sources met in pairs.
fn met_pairs<'a>(alloc: Global, sources: Vec<Source<'a>>) -> Result<Vec<Source<'a>>, AllocError>
    ensures all { IfOk result (λ pairs. (k : ℕ) → has_all pairs.items k ≡ has_all sources.entry.items k) }
    ensures fewer { IfOk result (λ pairs. 2 * length pairs.items ≤ length sources.entry.items + 1) }
    ensures some { IfOk result (λ pairs. 0 < length sources.entry.items → 0 < length pairs.items) }
{
    let mut sources = sources;
    let mut pairs = Vec::new(alloc);
    while let Some(first) = sources.pop() {
        match sources.pop() {
            None => pairs.push(first)?,
            Some(second) => {
                let met = Source::met(alloc, first, second)?;
                pairs.push(met)?;
            }
        }
    }
    Ok(pairs)
}

/// The positions that all of the sources have. An error means out of memory.
pub fn meet_all<'a>(alloc: Global, sources: Vec<Source<'a>>) -> Result<Source<'a>, AllocError>
    requires { 0 < length sources.items }
    ensures { IfOk result (λ met. (k : ℕ) → has met k ≡ has_all sources.entry.items k) }
{
    let mut sources = sources;
    while sources.len() > 1 {
        sources = met_pairs(alloc, sources)?;
    }
    match sources.pop() {
        None => Ok(Source::Empty),
        Some(source) => Ok(source),
    }
}
