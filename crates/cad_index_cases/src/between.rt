//! What the extents of features say.

use crate::values::{bounds, edge};
use cad_extents::Extents;
use cad_feature::{Feature, Range};
use cad_grid::Cells;
use cad_schema::{Collection, PropertyKind, schema};
use std::alloc::{AllocError, Global};

/// The range of the property at the place that the words name.
pub(crate) fn range(
    alloc: Global,
    place: usize,
    kind: PropertyKind,
    asked: &str,
) -> Result<Option<Range>, AllocError> {
    let Some((low, high)) = asked.trim().split_once(' ') else {
        return Ok(None);
    };
    let Some(low) = edge(alloc, kind, low)? else {
        return Ok(None);
    };
    let Some(high) = edge(alloc, kind, high)? else {
        return Ok(None);
    };
    Ok(Some(Range {
        property: place,
        low,
        high,
    }))
}

/// Whether one of the features with these extents may lie in the range or near the box.
fn may_have(
    alloc: Global,
    extents: &Extents,
    place: usize,
    kind: PropertyKind,
    asked: &str,
) -> Result<bool, AllocError> {
    if let Some(bounds) = bounds(asked.trim()) {
        return Ok(extents.may_be_near(place, Cells::of(bounds)));
    }
    match range(alloc, place, kind, asked)? {
        None => Ok(true),
        Some(range) => Ok(extents.may_lie_in(&range)),
    }
}

/// The extents of the features: those of the first half, with the others.
fn extents_of(alloc: Global, features: &[Feature]) -> Result<Extents, AllocError> {
    let (first, others) = features.split_at(features.len() / 2);
    let extents = Extents::of(alloc, first, schema(Collection::Parcels).len())?;
    extents.with(alloc, others)
}

/// Appends to the answer whether the extents of the features show that none of them is in the range or near the box.
pub(crate) fn put_extents(
    alloc: Global,
    answer: &mut String,
    features: &[Feature],
    place: usize,
    kind: PropertyKind,
    asked: &str,
) -> Result<(), AllocError> {
    let extents = extents_of(alloc, features)?;
    if may_have(alloc, &extents, place, kind, asked)? {
        answer.push_str(" may be")
    } else {
        answer.push_str(" none")
    }
}
