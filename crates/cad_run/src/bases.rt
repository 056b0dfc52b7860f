//! The candidates among features with indexes.

ghost use Rattle.std.specs.Prelude.{◌≤◌, length};
ghost use Rattle.std.specs.List.Sorted.{IsStrictlySortedBy};
ghost use Rattle.std.proofs.Props.{props};
ghost use Rattle.cad_feature.specs.Features.{by_identifier};

use crate::first_later::first_later;
use crate::indexed_source::IndexedSource;
use crate::planned::source_of;
use crate::sought::{Sought, is_at};
use cad_feature::Feature;
use cad_index::{Base, Shown};
use cad_lookup::Plan;
use cad_positions::{RowSource, Rows, Source};
use cad_versions::ObjectId;
use std::alloc::{AllocError, Global};

/// The remaining candidates of a base: the features at some positions.
#[derive(Debug, Drop)]
pub(crate) struct Bases<'a> {
    features: &'a [Feature],
    rows: Rows<'a>,
    /// If it is there, only features that have their values at this revision are candidates.
    revision: Option<u64>,
    ghost ascending: { IsStrictlySortedBy by_identifier features.now } by { Prim.hlevel props },
    ghost few: { length features.now ≤ 4294967295 },
}

impl<'a> Bases<'a> {
    ghost use Rattle.std.specs.Prelude.{◌≡◌, [], IfOk, filter};
    ghost use Rattle.cad_lookup.specs.Candidates.{is_candidate};
    ghost use Rattle.cad_run.specs.Bases.{rows_left};
    ghost use Rattle.cad_run.specs.Sought.{is_in_time, is_sought};

    /// The plan's candidates in the base that have their values at the revision, if there is one. An error means out of memory.
    fn among(
        alloc: Global,
        plan: &Plan,
        base: &'a Base,
        revision: Option<u64>,
    ) -> Result<Bases<'a>, AllocError>
        ensures { IfOk result (λ bases. rows_left bases ≡ filter (is_in_time revision) (filter (is_candidate plan.now) base.now.features)) }
    {
        let features = base.features();
        let source = source_of(alloc, plan, base)?;
        Ok(Bases {
            features,
            rows: Rows::of(source),
            revision,
        })
    }

    /// No features of the base.
    fn none(base: &'a Base) -> Bases<'a>
        ensures { rows_left result ≡ [] }
    {
        Bases {
            features: base.features(),
            rows: Rows::of(Source::Empty),
            revision: None,
        }
    }

    /// The candidates that are sought in the base. If none of its features has its values at the revision, no index is asked. An error
    /// means out of memory.
    pub(crate) fn of(
        alloc: Global,
        sought: Sought<'_>,
        base: &'a Base,
    ) -> Result<Bases<'a>, AllocError>
        ensures { IfOk result (λ bases. rows_left bases ≡ filter (is_sought sought.entry) base.now.features) }
    {
        let Some(revision) = sought.revision else {
            return Bases::among(alloc, sought.plan, base, None);
        };
        match base.shown_at(revision) {
            Shown::Nothing => Ok(Bases::none(base)),
            Shown::Part => Bases::among(alloc, sought.plan, base, sought.revision),
            Shown::Everything => Bases::among(alloc, sought.plan, base, None),
        }
    }
}

impl<'a> IndexedSource<'a> for Bases<'a> {
    ghost use Rattle.cad_run.specs.Bases.{rows_left};

    ghost left = { rows_left };

    fn next(&mut self) -> Option<&'a Feature> {
        while let Some(row) = self.rows.next() {
            let row = row as usize;
            if row < self.features.len() && is_at(self.revision, &self.features[row]) {
                return Some(&self.features[row]);
            }
        }
        None
    }

    fn seek(&mut self, last: (ObjectId, u32)) {
        let start = first_later(self.features, last);
        self.rows.seek(start as u32);
    }
}
