//! How many features meet a criterion.

ghost use Rattle.std.specs.Prelude.{◌≡◌, ◌≤◌, count_by};
ghost use Rattle.cad_lookup.specs.Ways.{how_many};

use crate::Change;
use crate::criterion::Criterion;
use cad_index::Base;

/// How many of the changes meet the criterion, by a look at each.
pub(crate) fn count_passing<T: Criterion>(changes: &[Change], criterion: &T) -> u64
    ensures { result ≡ count_by (T.passes criterion.now) changes.now }
{
    changes
        .iter()
        .filter(|change| criterion.is_met_by(change.feature()))
        .count() as u64
}

/// How many features of the base meet it, by an index.
pub(crate) fn count_indexed<T: Criterion>(base: &Base, criterion: &T) -> u64
    ensures passing { result ≡ how_many (T.passes criterion.now) base.now.features }
    ensures few { result ≤ 4294967295 }
{
    // There are at most as many as a base holds.
    let _features = base.features();
    criterion.count_in(base)
}
