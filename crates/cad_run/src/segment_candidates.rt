//! The candidates of a segment, in the order of identifiers.

ghost use Rattle.std.specs.Prelude.{◌≡◌, true};
ghost use Rattle.std.specs.List.{All};
ghost use Rattle.std.proofs.Props.{props};
ghost use Rattle.cad_layer.specs.Walks.{IsInOrder};
ghost use Rattle.cad_run.specs.Peeked.{peeked_left};
ghost use Rattle.cad_run.specs.IndexedLeft.{indexed_left};
ghost use Rattle.cad_run.specs.Sought.{is_sought};

use crate::indexed_candidates::IndexedCandidates;
use crate::peeked::Peeked;
use crate::sought::Sought;
use cad_feature::Feature;
use cad_layer::{Change, Segment, changes_after};
use cad_versions::ObjectId;
use std::alloc::{AllocError, Global};

/// The remaining candidates in a segment: those that indexes find, and recent changes, which may be candidates or not.
#[derive(Drop)]
pub(crate) struct SegmentCandidates<'a, 'p> {
    sought: Sought<'p>,
    bases: Peeked<'a, IndexedCandidates<'a>>,
    changes: &'a [Change],
    ghost order: { IsInOrder (peeked_left indexed_left bases) changes.now } by { Prim.hlevel props },
    ghost passing: { All (λ x. is_sought sought x ≡ true) (peeked_left indexed_left bases) },
}

impl<'a, 'p> SegmentCandidates<'a, 'p> {
    ghost use Rattle.std.specs.Prelude.{◌≡◌, [], ◌∷◌, IfOk, MatchOption, Some, filter};
    ghost use Rattle.cad_run.specs.SegmentLeft.{segment_left};
    ghost use Rattle.cad_run.specs.Slices.{identifier, later};
    ghost use Rattle.cad_run.specs.Sought.{is_sought};

    /// The candidates that are sought in the segment. An error means out of memory.
    pub(crate) fn of(
        alloc: Global,
        sought: Sought<'p>,
        segment: &'a Segment,
    ) -> Result<SegmentCandidates<'a, 'p>, AllocError>
        ensures { IfOk result (λ left. segment_left left ≡ filter (is_sought sought.entry) segment.now.features) }
    {
        let (indexed, changes) = segment.parts();
        let bases = IndexedCandidates::of(alloc, sought, indexed)?;
        Ok(SegmentCandidates {
            sought,
            bases: Peeked::new(bases),
            changes,
        })
    }

    /// Takes the first candidate.
    pub(crate) fn next(&mut self) -> Option<&'a Feature>
        ensures { MatchOption result (segment_left self.old ≡ []) (λ x. segment_left self.old ≡ x.now ∷ segment_left self.new) }
    {
        while let Some((change, changes)) = self.changes.split_first() {
            let feature = change.feature();
            if !self.bases.give_way(feature) {
                return self.bases.next();
            }
            self.changes = changes;
            if self.sought.has(feature) {
                return Some(feature);
            }
        }
        self.bases.next()
    }

    /// Drops the candidates up to the named one.
    pub(crate) fn seek(&mut self, last: (ObjectId, u32))
        ensures { segment_left self.new ≡ later (Some (identifier last)) (segment_left self.old) }
    {
        self.bases.seek(last);
        self.changes = changes_after(self.changes, last.0, last.1);
    }
}
