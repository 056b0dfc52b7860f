//! The features of one collection at one of several revisions.

ghost use Rattle.std.specs.Prelude.{◌≡◌, IfOk};

use crate::criterion::{AnyFeature, InRange, NearCells};
use crate::cutting::cut;
use crate::indexed::MOST_FEATURES;
use crate::renewing::{Due, all_features, change_count, fullest_of, greatest_base, renewed};
use crate::searching::segment_of;
use crate::spreading::spread;
use crate::summing::{count_all, count_all_at, length_of_all};
use crate::{Segment, Walk};
use cad_feature::{Feature, Range};
use cad_schema::Collection;
use cad_shape::Bounds;
use cad_versions::ObjectId;
use std::alloc::{AllocError, Global};
use std::marker::Model;
use std::rc::Rc;

/// The number of features of which a segment is cut, unless another number is asked for.
pub const OF_A_SEGMENT: usize = 8192;

/// If a segment has more than this many times the number of features of which it was cut, the layer is cut anew.
const MOST_GROWN: usize = 4;

/// A segment with more than this part of the changes that all segments may have gets a new base, too.
const MANY_OF_MOST: usize = 4;

/// A segment has at most one recent change for this many of the features of which it is cut.
const FEATURES_FOR_A_RECENT: usize = 4;

/// And at most this many: counting looks at them one by one, and each change writes their list anew.
const MOST_RECENT: usize = 64;

/// The features of a collection at a revision, in segments by object, which other revisions share.
///
/// Contracts see the collection and the features, with the changes merged.
#[derive(Drop)]
pub struct Layer {
    collection: Collection,
    segments: Rc<Vec<Segment>>,
    /// How many features there are.
    count: u64,
    /// The number of features of which a segment is cut.
    of_a_segment: usize,
}

fn share(alloc: Global, segments: Vec<Segment>) -> Result<Rc<Vec<Segment>>, AllocError>
    ensures { IfOk result (λ shared. shared.value.items ≡ segments.items) }
{
    let shared = Rc::new(alloc, segments)?;
    Ok(shared)
}

fn listed(segments: &Rc<Vec<Segment>>) -> &[Segment]
    ensures { result.now ≡ segments.now.value.items }
{
    segments.as_ref().as_slice()
}

impl Model for Layer {
    ghost use Rattle.std.specs.Prelude.{◌≡◌, ◌<◌, length};
    ghost use Rattle.std.specs.List.{AllByRecursion};
    ghost use Rattle.cad_feature.specs.Features.{AreFeaturesOf};
    ghost use Rattle.cad_index.specs.Layers.{LayerFeatures};
    ghost use Rattle.cad_layer.specs.Segments.{AreSegments, SegmentFeatures, joined};

    ghost Value = { LayerFeatures };

    ghost view = { λ l. record { collection = l.collection; features = joined l.segments.value.items } };

    ghost invariant = { λ l. AreFeaturesOf l.collection (joined l.segments.value.items) × AreSegments l.segments.value.items × AllByRecursion (λ (s : SegmentFeatures). s.collection ≡ l.collection) l.segments.value.items × (l.count ≡ length (joined l.segments.value.items)) × (0 < length l.segments.value.items) };
}

impl Layer {
    ghost use Rattle.std.specs.Prelude.{◌≡◌, ◌≤◌, IfOk, length};
    ghost use Rattle.std.specs.Option.{option_copied};
    ghost use Rattle.cad_grid.specs.Blocks.{block_of};
    ghost use Rattle.cad_feature.specs.Features.{AreFeaturesOf};
    ghost use Rattle.cad_feature.specs.Limits.{limit_of};
    ghost use Rattle.cad_lookup.specs.Ways.{counts_of};
    ghost use Rattle.cad_layer.specs.Identifiers.{identifier, of_object, IsTheOne};
    ghost use Rattle.cad_index.specs.Moments.{rows_at};
    ghost use Rattle.cad_layer.specs.Segments.{AreSegments, joined};
    ghost use Rattle.cad_layer.specs.Walks.{all_in};

    /// These features of the collection, without changes. An error means out of memory.
    pub fn build(
        alloc: Global,
        features: Vec<Feature>,
        collection: Collection,
    ) -> Result<Layer, AllocError>
        requires small { length features.items ≤ 4294967295 }
        requires listed { AreFeaturesOf collection features.items }
        ensures { IfOk result (λ layer. layer ≡ record { collection = collection; features = features.items }) }
    {
        Layer::in_segments(alloc, features, collection, OF_A_SEGMENT)
    }

    /// The same, in segments of the given number of features. An error means out of memory.
    pub fn in_segments(
        alloc: Global,
        features: Vec<Feature>,
        collection: Collection,
        of_a_segment: usize,
    ) -> Result<Layer, AllocError>
        requires small { length features.items ≤ 4294967295 }
        requires listed { AreFeaturesOf collection features.items }
        ensures { IfOk result (λ layer. layer ≡ record { collection = collection; features = features.items }) }
    {
        let count = features.len() as u64;
        let segments = cut(alloc, features, collection, of_a_segment)?;
        let segments = share(alloc, segments)?;
        Ok(Layer {
            collection,
            segments,
            count,
            of_a_segment,
        })
    }

    /// The collection whose features they are.
    pub fn collection(&self) -> Collection
        ensures collection { result ≡ self.now.collection }
        ensures listed { AreFeaturesOf result self.now.features }
    {
        self.collection
    }

    /// The segments, by object.
    pub fn segments(&self) -> &[Segment]
        ensures all { joined result.now ≡ self.now.features }
        ensures apart { AreSegments result.now }
    {
        listed(&self.segments)
    }

    /// All features, by copies. An error means out of memory.
    pub fn features(&self, alloc: Global) -> Result<Vec<Feature>, AllocError>
        ensures { IfOk result (λ all. all.items ≡ self.now.features) }
    {
        all_features(alloc, listed(&self.segments))
    }

    /// The same features with these merged into them, over the same bases. Without features to merge, all is shared; otherwise all segments
    /// are shared except those in which these lie. An error means out of memory.
    pub fn with(&self, alloc: Global, touched: Vec<Feature>) -> Result<Layer, AllocError>
        requires { AreFeaturesOf self.now.collection touched.items }
        ensures { IfOk result (λ layer. layer ≡ record { collection = self.now.collection; features = all_in self.now.features touched.items }) }
    {
        if touched.is_empty() {
            return self.copy();
        }
        let most_recent = (self.of_a_segment / FEATURES_FOR_A_RECENT).min(MOST_RECENT);
        let segments = listed(&self.segments);
        let segments = spread(alloc, segments, touched, self.collection, most_recent)?;
        let Some(count) = length_of_all(&segments) else {
            return Err(AllocError);
        };
        let segments = share(alloc, segments)?;
        Ok(Layer {
            collection: self.collection,
            segments,
            count,
            of_a_segment: self.of_a_segment,
        })
    }

    /// The same features: segments are shared. An error means that too many share them.
    pub fn copy(&self) -> Result<Layer, AllocError>
        ensures { IfOk result (λ layer. layer ≡ self.now) }
    {
        let segments = self.segments.clone()?;
        Ok(Layer {
            collection: self.collection,
            segments,
            count: self.count,
            of_a_segment: self.of_a_segment,
        })
    }

    /// Whether no new base is due: all segments together have no more changes than `most`.
    pub fn is_settled(&self, most: usize) -> bool {
        change_count(listed(&self.segments)) <= most
    }

    /// The same features, with new bases for the segment that has the most changes, and for those that have more than a quarter of
    /// `most`. If a segment has grown far, all is cut anew, if that is possible. An error means out of memory.
    pub fn rebased(&self, alloc: Global, most: usize) -> Result<Layer, AllocError>
        ensures { IfOk result (λ layer. layer ≡ self.now) }
    {
        let segments = listed(&self.segments);
        if greatest_base(segments) / MOST_GROWN > self.of_a_segment {
            return self.cut_anew(alloc);
        }
        let due = Due {
            at: fullest_of(segments).at,
            many: most / MANY_OF_MOST,
        };
        let segments = renewed(alloc, segments, due)?;
        let segments = share(alloc, segments)?;
        Ok(Layer {
            collection: self.collection,
            segments,
            count: self.count,
            of_a_segment: self.of_a_segment,
        })
    }

    /// The same features in new segments, if a base can hold their positions. An error means out of memory.
    fn cut_anew(&self, alloc: Global) -> Result<Layer, AllocError>
        ensures { IfOk result (λ layer. layer ≡ self.now) }
    {
        let features = self.features(alloc)?;
        if features.len() > MOST_FEATURES {
            return self.copy();
        }
        Layer::in_segments(alloc, features, self.collection, self.of_a_segment)
    }

    /// The feature that is the version of that object with that number. No memory is taken.
    pub fn feature(&self, object: ObjectId, number: u32) -> Option<&Feature>
        ensures { IsTheOne (identifier object number) self.now.features (option_copied result) }
    {
        match segment_of(listed(&self.segments), object) {
            None => None,
            Some(segment) => segment.feature(object, number),
        }
    }

    /// A walk through the versions of the object, the oldest first.
    pub fn versions_of(&self, object: ObjectId) -> Walk<'_>
        ensures { result ≡ of_object object self.now.features }
    {
        match segment_of(listed(&self.segments), object) {
            None => Walk::new(&[], &[], &[]),
            Some(segment) => segment.walk().of_object(object),
        }
    }

    /// How many features there are.
    pub fn count(&self) -> u64
        ensures { result ≡ length self.now.features }
    {
        self.count
    }

    /// How many features have a value in the range, by the indexes of the bases and a look at each change. No memory is taken.
    pub fn count_in(&self, range: &Range) -> u64
        ensures { result ≡ (counts_of self.now.features).between range.now.property (limit_of range.now.low) (limit_of range.now.high) }
    {
        count_all(listed(&self.segments), &InRange { range }, self.count)
    }

    /// How many features are near the box, by the grids of the bases and a look at each change. No memory is taken.
    pub fn count_near(&self, property: usize, bounds: Bounds) -> u64
        ensures { result ≡ (counts_of self.now.features).near property (block_of bounds) }
    {
        let near = NearCells::to(property, bounds);
        count_all(listed(&self.segments), &near, self.count)
    }

    /// How many features have their values at the revision. No memory is taken.
    pub fn count_at(&self, revision: u64) -> u64
        ensures { result ≡ length (rows_at revision self.now.features) }
    {
        count_all_at(listed(&self.segments), &AnyFeature, revision, self.count)
    }

    /// How many of the features that have their values at the revision have a value in the range. No memory is taken.
    pub fn count_in_at(&self, range: &Range, revision: u64) -> u64
        ensures { result ≡ (counts_of (rows_at revision self.now.features)).between range.now.property (limit_of range.now.low) (limit_of range.now.high) }
    {
        let in_range = InRange { range };
        count_all_at(listed(&self.segments), &in_range, revision, self.count)
    }

    /// How many of the features that have their values at the revision are near the box. No memory is taken.
    pub fn count_near_at(&self, property: usize, bounds: Bounds, revision: u64) -> u64
        ensures { result ≡ (counts_of (rows_at revision self.now.features)).near property (block_of bounds) }
    {
        let near_cells = NearCells::to(property, bounds);
        count_all_at(listed(&self.segments), &near_cells, revision, self.count)
    }
}
