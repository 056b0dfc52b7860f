//! The positions that an index finds, walked or tested.

ghost use Rattle.std.specs.Prelude.{◌≡◌, ◌&&◌, ℕ, IfOk};
ghost use Rattle.std.specs.List.Sorted.{IsStrictlyIncreasing};
ghost use Rattle.cad_grid.specs.Blocks.{block_of};
ghost use Rattle.cad_grid.specs.Near.{is_near};
ghost use Rattle.cad_range.specs.Ranges.{lies_in};
ghost use Rattle.cad_positions.specs.Has.{has};
ghost use Rattle.cad_positions.specs.Held.{is_among};
ghost use Rattle.cad_run.specs.inner.Parts.{has_part, has_wide, PartStands};

use cad_feature::Range;
use cad_index::{Base, Found};
use cad_positions::{Positions, Source};
use cad_shape::Bounds;
use std::alloc::{AllocError, Global};

/// Positions below `end` whose ranks lie from `from` on, below `to`.
#[derive(Clone, Copy, Debug)]
pub(crate) struct Wide<'a> {
    pub(crate) end: u32,
    pub(crate) ranks: &'a [u32],
    pub(crate) from: u32,
    pub(crate) to: u32,
}

/// Positions that are walked, or a test of positions.
#[derive(Debug, Drop)]
pub(crate) enum Part<'a> {
    Walked(Source<'a>),
    Wide(Wide<'a>),
}

// If there are few they are walked, and if there are many they are a test.
fn found_part<'a>(alloc: Global, found: &Found<'a>) -> Result<Part<'a>, AllocError>
    requires { IsStrictlyIncreasing found.now }
    ensures { IfOk result (λ part. (k : ℕ) → has_part part k ≡ is_among found.now k) }
{
    let positions = found.positions(alloc)?;
    match positions {
        Positions::Listed(rows) => Ok(Part::Walked(Source::listed(rows))),
        Positions::Ranked { ranks, from, to } => Ok(Part::Wide(Wide {
            end: ranks.len() as u32,
            ranks,
            from,
            to,
        })),
    }
}

/// The positions of the features with a value in the range.
pub(crate) fn range_part<'a>(
    alloc: Global,
    base: &'a Base,
    range: &Range,
) -> Result<Part<'a>, AllocError>
    ensures { IfOk result (PartStands base.now.features (λ x. lies_in x range.now)) }
{
    match base.indexes().range(range) {
        None => Ok(Part::Walked(Source::Empty)),
        Some(found) => {
            let part = found_part(alloc, &found)?;
            Ok(part)
        }
    }
}

/// The positions of the features near the box.
pub(crate) fn near_part<'a>(
    alloc: Global,
    base: &'a Base,
    property: usize,
    bounds: Bounds,
) -> Result<Part<'a>, AllocError>
    ensures { IfOk result (PartStands base.now.features (is_near property (block_of bounds))) }
{
    let rows = base.indexes().near(alloc, property, bounds)?;
    Ok(Part::Walked(Source::listed(rows)))
}

/// A part as a source: a test walks all positions.
pub(crate) fn walked<'a>(alloc: Global, part: Part<'a>) -> Result<Source<'a>, AllocError>
    ensures { IfOk result (λ source. (k : ℕ) → has source k ≡ has_part part.entry k) }
{
    match part {
        Part::Walked(source) => Ok(source),
        Part::Wide(wide) => {
            let source = tested(alloc, Source::scan(wide.end), wide)?;
            Ok(source)
        }
    }
}

/// The positions of a source that pass a test.
pub(crate) fn tested<'a>(
    alloc: Global,
    source: Source<'a>,
    wide: Wide<'a>,
) -> Result<Source<'a>, AllocError>
    ensures { IfOk result (λ tested. (k : ℕ) → has tested k ≡ (has source.entry k && has_wide wide.entry k)) }
{
    Source::tested(alloc, source, wide.end, wide.ranks, wide.from, wide.to)
}
