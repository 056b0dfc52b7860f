//! Changes spread over the segments in which they lie.

ghost use Rattle.std.specs.Prelude.{◌≡◌, IfOk, OnOk};
ghost use Rattle.std.specs.List.{AllByRecursion};
ghost use Rattle.std.specs.List.Sorted.{IsStrictlySortedBy};
ghost use Rattle.cad_versions.specs.Objects.{object_number};
ghost use Rattle.cad_feature.specs.Features.{AreFeaturesOf, by_identifier};
ghost use Rattle.cad_layer.specs.Segments.{SegmentFeatures, is_from as is_from_of, left_of, own_of, with_in};

use crate::Segment;
use cad_feature::Feature;
use cad_schema::Collection;
use std::alloc::{AllocError, Global};

/// The number of the feature's object.
pub(crate) fn object_of(feature: &Feature) -> u32
    ensures { result ≡ object_number feature.now.object }
{
    feature.object.number()
}

/// Whether the feature is of the object or of a later one.
pub(crate) fn is_from(feature: &Feature, object: u32) -> bool
    ensures { result ≡ is_from_of object feature.now }
{
    object <= object_of(feature)
}

/// The features from the start of the next segment on; `touched` keeps the others. An error means out of memory.
fn cut_off(
    alloc: Global,
    touched: &mut Vec<Feature>,
    next: &[Segment],
) -> Result<Vec<Feature>, AllocError>
    requires { IsStrictlySortedBy by_identifier touched.old.items }
    ensures own { OnOk result (touched.new.items ≡ own_of next.now touched.old.items) }
    ensures left { IfOk result (λ left. left.items ≡ left_of next.now touched.old.items) }
{
    let Some((next, _)) = next.split_first() else {
        return Ok(Vec::new(alloc));
    };
    let start = next.start();
    let at = touched.partition_point(|feature| !is_from(feature, start));
    let left = touched.split_off(at)?;
    Ok(left)
}

/// The segments, each with the given features that lie in it, and no more recent changes than the limit. An error means out of memory.
pub(crate) fn spread(
    alloc: Global,
    segments: &[Segment],
    touched: Vec<Feature>,
    collection: Collection,
    most_recent: usize,
) -> Result<Vec<Segment>, AllocError>
    requires alike { AllByRecursion (λ (s : SegmentFeatures). s.collection ≡ collection) segments.now }
    requires listed { AreFeaturesOf collection touched.items }
    ensures { IfOk result (λ all. all.items ≡ with_in segments.now touched.items) }
{
    let mut all = Vec::with_capacity(alloc, segments.len())?;
    let mut left = touched;
    let mut rest = segments;
    while let Some((segment, behind)) = rest.split_first() {
        let later = cut_off(alloc, &mut left, behind)?;
        let segment = segment.with(alloc, left, most_recent)?;
        all.push(segment)?;
        left = later;
        rest = behind;
    }
    Ok(all)
}
