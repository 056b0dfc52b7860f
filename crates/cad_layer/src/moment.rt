//! Criteria for features that have their values at a revision.

ghost use Rattle.std.specs.Prelude.{◌≡◌, ◌&&◌};
ghost use Rattle.cad_index.specs.Moments.{is_shown_at};

use crate::criterion::{Criterion, CriterionAt};
use cad_extents::Extents;
use cad_feature::Feature;
use cad_index::{Base, Shown};

/// Whether the feature has its values at the revision and meets the criterion.
fn is_met_at<T: Criterion>(criterion: &T, feature: &Feature, revision: u64) -> bool
    ensures { result ≡ (is_shown_at revision feature.now && T.passes criterion.now feature.now) }
{
    feature.period.contains(revision) && criterion.is_met_by(feature)
}

/// A criterion, and values at a revision.
#[derive(Clone, Copy)]
pub(crate) struct AtRevision<'a, T> {
    pub(crate) criterion: &'a T,
    pub(crate) revision: u64,
}

impl<T: CriterionAt> Criterion for AtRevision<'_, T> {
    ghost use Rattle.std.specs.Prelude.{◌&&◌};
    ghost use Rattle.cad_index.specs.Moments.{is_shown_at};

    ghost passes = { λ t x. is_shown_at t.revision x && T.passes t.criterion.now x };

    fn is_met_by(&self, feature: &Feature) -> bool {
        is_met_at(self.criterion, feature, self.revision)
    }

    fn may_be_met_in(&self, extents: &Extents) -> bool {
        self.criterion.may_be_met_in(extents)
    }

    fn count_in(&self, base: &Base) -> u64 {
        match base.shown_at(self.revision) {
            Shown::Nothing => 0,
            Shown::Part => self.criterion.count_in_at(base, self.revision),
            Shown::Everything => self.criterion.count_in(base),
        }
    }
}
