//! Features cut into segments.

ghost use Rattle.std.specs.Prelude.{◌≡◌, ◌≤◌, ◌<◌, IfOk, length};
ghost use Rattle.std.specs.List.{AllByRecursion};
ghost use Rattle.cad_feature.specs.Features.{AreFeaturesOf};
ghost use Rattle.cad_layer.specs.Segments.{AreSegments, SegmentFeatures, joined};

use crate::Segment;
use crate::spreading::{is_from, object_of};
use cad_feature::Feature;
use cad_schema::Collection;
use std::alloc::{AllocError, Global};

/// The features in segments of at least `least` features, and of more if an object has many versions. The first segment has the rest.
/// An error means out of memory.
pub(crate) fn cut(
    alloc: Global,
    features: Vec<Feature>,
    collection: Collection,
    least: usize,
) -> Result<Vec<Segment>, AllocError>
    requires small { length features.items ≤ 4294967295 }
    requires listed { AreFeaturesOf collection features.items }
    ensures all { IfOk result (λ segments. joined segments.items ≡ features.items) }
    ensures apart { IfOk result (λ segments. AreSegments segments.items) }
    ensures some { IfOk result (λ segments. 0 < length segments.items) }
    ensures alike { IfOk result (λ segments. AllByRecursion (λ (s : SegmentFeatures). s.collection ≡ collection) segments.items) }
{
    let mut left = features;
    let mut segments = Vec::new(alloc);
    while least < left.len() {
        let start = object_of(&left[left.len() - 1 - least]);
        let at = left.partition_point(|feature| !is_from(feature, start));
        let behind = left.split_off(at)?;
        let segment = Segment::build(alloc, behind, collection, start)?;
        segments.push(segment)?;
    }
    left.shrink_to_fit();
    let first = Segment::build(alloc, left, collection, 0)?;
    segments.push(first)?;
    segments.reverse();
    Ok(segments)
}
