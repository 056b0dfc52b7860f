//! The candidates that are sought: of all rows, or of those that have their values at a revision.

ghost use Rattle.std.specs.Prelude.{◌≡◌};
ghost use Rattle.cad_run.specs.Sought.{is_in_time, is_sought};

use crate::candidacy::is_candidate;
use cad_feature::Feature;
use cad_lookup::Plan;

/// A plan's candidates, as far as they have their values at a revision; without a revision, all of them.
#[derive(Clone, Copy)]
pub(crate) struct Sought<'p> {
    pub(crate) plan: &'p Plan,
    pub(crate) revision: Option<u64>,
}

/// Whether the feature has its values at the revision, if there is one.
pub(crate) fn is_at(revision: Option<u64>, feature: &Feature) -> bool
    ensures { result ≡ is_in_time revision feature.now }
{
    match revision {
        None => true,
        Some(revision) => feature.period.contains(revision),
    }
}

impl Sought<'_> {
    /// Whether the feature is sought. No memory is taken.
    pub(crate) fn has(self, feature: &Feature) -> bool
        ensures { result ≡ is_sought self.entry feature.now }
    {
        is_at(self.revision, feature) && is_candidate(self.plan, feature)
    }
}
