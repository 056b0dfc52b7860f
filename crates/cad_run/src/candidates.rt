//! The candidates of a layer, in the order of identifiers.

ghost use Rattle.std.specs.Prelude.{◌≡◌, ◌<◌, ◌^◌, length};
ghost use Rattle.std.specs.List.Sorted.{IsStrictlySortedBy};
ghost use Rattle.std.proofs.Props.{props};
ghost use Rattle.cad_feature.specs.Features.{by_identifier};
ghost use Rattle.cad_layer.specs.Segments.{AreSegments, segments_prop};
ghost use Rattle.cad_run.specs.SegmentLeft.{segments_ahead, segments_left};

use crate::feature_source::FeatureSource;
use crate::segments_left::SegmentsLeft;
use crate::sought::Sought;
use crate::stepped_source::{Step, SteppedSource};
use cad_feature::Feature;
use cad_layer::Layer;
use cad_lookup::Plan;
use cad_versions::ObjectId;
use std::alloc::{AllocError, Global};

/// A plan's remaining candidates.
#[derive(Drop)]
pub struct Candidates<'a, 'p> {
    segments: SegmentsLeft<'a, 'p>,
    ghost apart: { AreSegments segments.unopened.now } by { segments_prop segments.unopened.now },
    ghost ascending: { IsStrictlySortedBy by_identifier (segments_left segments) } by { Prim.hlevel props },
    ghost in_order: { IsStrictlySortedBy by_identifier (segments_ahead segments) } by { Prim.hlevel props },
    ghost few: { length (segments_left segments) < 2 ^ 64 },
}

impl<'a, 'p> Candidates<'a, 'p> {
    ghost use Rattle.std.specs.Prelude.{◌≡◌, IfOk, filter};
    ghost use Rattle.cad_index.specs.Moments.{rows_at};
    ghost use Rattle.cad_lookup.specs.Candidates.{candidates};
    ghost use Rattle.cad_run.specs.Left.{candidates_ahead, candidates_left};
    ghost use Rattle.cad_run.specs.Sought.{is_sought};

    /// What is sought in the layer.
    fn sought(alloc: Global, sought: Sought<'p>, layer: &'a Layer) -> Candidates<'a, 'p>
        ensures left { candidates_left result ≡ filter (is_sought sought.entry) layer.now.features }
        ensures ahead { candidates_ahead result ≡ layer.now.features }
    {
        // Features ascend, and a counter holds their number: so the same holds of the candidates that are left.
        let _collection = layer.collection();
        let _count = layer.count();
        let segments = SegmentsLeft::new(alloc, sought, layer.segments());
        Candidates { segments }
    }

    /// The candidates of the layer.
    pub fn of(alloc: Global, plan: &'p Plan, layer: &'a Layer) -> Candidates<'a, 'p>
        ensures left { candidates_left result ≡ candidates plan.now layer.now.features }
        ensures ahead { candidates_ahead result ≡ layer.now.features }
    {
        let all = Sought {
            plan,
            revision: None,
        };
        Candidates::sought(alloc, all, layer)
    }

    /// The candidates of the layer that have their values at the revision.
    pub fn at(alloc: Global, plan: &'p Plan, layer: &'a Layer, revision: u64) -> Candidates<'a, 'p>
        ensures { candidates_left result ≡ rows_at revision (candidates plan.now layer.now.features) }
    {
        let shown = Sought {
            plan,
            revision: Some(revision),
        };
        Candidates::sought(alloc, shown, layer)
    }
}

impl<'a> FeatureSource<'a> for Candidates<'a, '_> {
    ghost use Rattle.cad_run.specs.Left.{candidates_left, left_ascends, left_bounded};

    ghost left = { candidates_left };

    ghost ascends = { left_ascends };

    ghost bounded = { left_bounded };

    fn next(&mut self) -> Result<Option<&'a Feature>, AllocError> {
        self.segments.next()
    }

    fn seek(&mut self, last: (ObjectId, u32)) {
        self.segments.seek(last);
    }
}

impl<'a> SteppedSource<'a> for Candidates<'a, '_> {
    ghost use Rattle.cad_run.specs.Left.{candidates_ahead, candidates_left};

    ghost left = { candidates_left };

    ghost ahead = { candidates_ahead };

    fn step(&mut self) -> Result<Step<'a>, AllocError> {
        self.segments.step()
    }

    fn seek(&mut self, last: (ObjectId, u32)) {
        self.segments.seek(last);
    }
}
