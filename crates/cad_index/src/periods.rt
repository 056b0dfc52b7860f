//! When the periods of features begin and end: this says how many of them have their values at a revision.

ghost use Rattle.std.specs.Prelude.{◌≡◌, IfOk, List, filter, length, nat_le};
ghost use Rattle.std.specs.List.Sorted.{IsNonDecreasing};
ghost use Rattle.cad_feature.specs.Features.{Item};
ghost use Rattle.cad_index.specs.Moments.{rows_at};
ghost use Rattle.cad_index.specs.inner.Periods.{AreTimes, AreTimesOf};

use cad_feature::Feature;
use std::alloc::{AllocError, Global};

/// How many of some features have their values at a revision.
#[derive(Clone, Copy, Debug)]
pub enum Shown {
    /// None of them.
    Nothing,
    /// Some of them, and not others.
    Part,
    /// All of them.
    Everything,
}

/// The revisions at which the periods of some features begin, and those at which they end, each in ascending order.
///
/// Periods that contain no revision are left out, and so are the ends of periods that have none yet.
#[derive(Drop)]
pub(crate) struct Periods {
    starts: Vec<u32>,
    ends: Vec<u32>,
}

/// How many of these times are at most the revision.
fn count_upto(times: &[u32], revision: u64) -> u64
    requires { IsNonDecreasing times.now }
    ensures { result ≡ length (filter (λ time. nat_le time revision) times.now) }
{
    times.partition_point(|time| u64::from(*time) <= revision) as u64
}

impl Periods {
    /// The periods of these features. An error means out of memory.
    pub(crate) fn of(alloc: Global, features: &[Feature]) -> Result<Periods, AllocError>
        ensures { IfOk result (λ periods. AreTimesOf periods features.now) }
    {
        let mut starts = Vec::with_capacity(alloc, features.len())?;
        let mut ends = Vec::new(alloc);
        for feature in features {
            let period = feature.period;
            if period.start < period.end {
                starts.push(period.start)?;
                if period.end < u32::MAX {
                    ends.push(period.end)?;
                }
            }
        }
        ends.shrink_to_fit();
        starts.sort_unstable();
        ends.sort_unstable();
        Ok(Periods { starts, ends })
    }

    /// How many of the features have their values at the revision. No memory is taken.
    pub(crate) fn count_at(&self, revision: u64) -> u64
        requires { AreTimes self.now }
        ensures { (xs : List Item) → AreTimesOf self.now xs → result ≡ length (rows_at revision xs) }
    {
        if revision >= u64::from(u32::MAX) {
            return 0;
        }
        count_upto(&self.starts, revision) - count_upto(&self.ends, revision)
    }
}
