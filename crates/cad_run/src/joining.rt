//! Parts of a plan as one source.

ghost use Rattle.std.specs.Prelude.{◌≡◌, ◌&&◌, ◌<◌, ℕ, IfOk, nat_lt};
ghost use Rattle.cad_positions.specs.Has.{has, has_any, has_all};
ghost use Rattle.cad_run.specs.inner.Parts.{has_all_parts, has_any_part, has_all_wide};

use crate::parts::{Part, Wide, tested, walked};
use cad_positions::{Source, join_all, meet_all};
use std::alloc::{AllocError, Global};

/// The positions of some part.
pub(crate) fn joined<'a>(alloc: Global, parts: Vec<Part<'a>>) -> Result<Source<'a>, AllocError>
    ensures { IfOk result (λ source. (k : ℕ) → has source k ≡ has_any_part parts.entry.items k) }
{
    let mut parts = parts;
    let mut sources = Vec::new(alloc);
    while let Some(part) = parts.pop() {
        let source = walked(alloc, part)?;
        sources.push(source)?;
    }
    let source = join_all(alloc, sources)?;
    Ok(source)
}

// The positions of a source that pass all tests.
fn all_tested<'a>(
    alloc: Global,
    source: Source<'a>,
    tests: Vec<Wide<'a>>,
) -> Result<Source<'a>, AllocError>
    ensures { IfOk result (λ tested. (k : ℕ) → has tested k ≡ (has source.entry k && has_all_wide tests.entry.items k)) }
{
    let mut source = source;
    for wide in &tests {
        source = tested(alloc, source, *wide)?;
    }
    Ok(source)
}

/// The positions below `count` that all parts have: the parts that are walked, with the tests made on them.
pub(crate) fn met<'a>(
    alloc: Global,
    parts: Vec<Part<'a>>,
    count: u32,
) -> Result<Source<'a>, AllocError>
    ensures { IfOk result (λ source. (k : ℕ) → has source k ≡ (nat_lt k count && has_all_parts parts.entry.items k)) }
{
    let mut parts = parts;
    let mut tests = Vec::new(alloc);
    let mut sources = Vec::new(alloc);
    sources.push(Source::scan(count))?;
    while let Some(part) = parts.pop() {
        match part {
            Part::Walked(source) => sources.push(source)?,
            Part::Wide(wide) => tests.push(wide)?,
        }
    }
    let source = meet_all(alloc, sources)?;
    let source = all_tested(alloc, source, tests)?;
    Ok(source)
}
