//! The candidates among the indexed features of a segment, in the order of identifiers.

ghost use Rattle.std.specs.Prelude.{◌≡◌};
ghost use Rattle.std.specs.List.Sorted.{IsStrictlySortedBy};
ghost use Rattle.std.proofs.Props.{props};
ghost use Rattle.cad_feature.specs.Features.{by_identifier};
ghost use Rattle.cad_layer.specs.Walks.{IsInOrder};
ghost use Rattle.cad_run.specs.Bases.{rows_left};
ghost use Rattle.cad_run.specs.Peeked.{peeked_left};

use crate::bases::Bases;
use crate::indexed_source::IndexedSource;
use crate::peeked::Peeked;
use crate::replaced::is_replaced;
use crate::sought::Sought;
use cad_feature::Feature;
use cad_layer::Indexed;
use cad_versions::ObjectId;
use std::alloc::{AllocError, Global};

/// The remaining candidates among features of a base and older changes to it: those of the base that no change replaces, and those
/// of the changes. Both are found by indexes.
#[derive(Drop)]
pub(crate) struct IndexedCandidates<'a> {
    bases: Peeked<'a, Bases<'a>>,
    older: &'a [Feature],
    olders: Peeked<'a, Bases<'a>>,
    ghost ascending: { IsStrictlySortedBy by_identifier older.now } by { Prim.hlevel props },
    ghost order: { IsInOrder (peeked_left rows_left bases) (peeked_left rows_left olders) } by { Prim.hlevel props },
}

impl<'a> IndexedCandidates<'a> {
    ghost use Rattle.std.specs.Prelude.{◌≡◌, IfOk, filter};
    ghost use Rattle.cad_run.specs.IndexedLeft.{indexed_left, BaseStandsFirst};
    ghost use Rattle.cad_run.specs.Sought.{is_sought};

    /// The candidates that are sought among the indexed features. An error means out of memory.
    pub(crate) fn of(
        alloc: Global,
        sought: Sought<'_>,
        indexed: &'a Indexed,
    ) -> Result<IndexedCandidates<'a>, AllocError>
        ensures { IfOk result (λ left. indexed_left left ≡ filter (is_sought sought.entry) indexed.now.features) }
    {
        let (base, older) = indexed.parts();
        let bases = Bases::of(alloc, sought, base)?;
        let olders = Bases::of(alloc, sought, older)?;
        Ok(IndexedCandidates {
            bases: Peeked::new(bases),
            older: older.features(),
            olders: Peeked::new(olders),
        })
    }

    /// Drops the first features of the base, up to one that no change replaces.
    fn drop_replaced(&mut self)
        ensures left { indexed_left self.new ≡ indexed_left self.old }
        ensures first { BaseStandsFirst self.new }
    {
        while let Some(feature) = self.bases.peek() {
            if !is_replaced(self.older, feature) {
                return;
            }
            self.bases.next();
        }
    }
}

impl<'a> IndexedSource<'a> for IndexedCandidates<'a> {
    ghost use Rattle.cad_run.specs.IndexedLeft.{indexed_left};

    ghost left = { indexed_left };

    fn next(&mut self) -> Option<&'a Feature> {
        self.drop_replaced();
        let Some(older) = self.olders.peek() else {
            return self.bases.next();
        };
        if self.bases.give_way(older) {
            self.olders.next()
        } else {
            self.bases.next()
        }
    }

    fn seek(&mut self, last: (ObjectId, u32)) {
        self.bases.seek(last);
        self.olders.seek(last);
    }
}
