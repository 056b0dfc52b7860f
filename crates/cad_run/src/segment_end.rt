//! The last feature of a segment.

ghost use Rattle.std.specs.Prelude.{◌≡◌, List, option_map};
ghost use Rattle.std.specs.List.Sorted.{IsStrictlySortedBy};
ghost use Rattle.cad_feature.specs.Features.{Item, by_identifier};
ghost use Rattle.cad_layer.specs.Walks.{all_in};
ghost use Rattle.cad_run.specs.inner.Ends.{IsEnd, is_beyond};
ghost use Rattle.cad_run.specs.Slices.{identifier, later};

use crate::later_one::later_of;
use cad_feature::Feature;
use cad_layer::{Change, Segment};
use cad_versions::{ObjectId, compare_identifiers};

/// The identifier of the last feature.
fn last_feature(features: &[Feature]) -> Option<(ObjectId, u32)>
    requires { IsStrictlySortedBy by_identifier features.now }
    ensures { IsEnd (option_map identifier result) features.now }
{
    let (last, _others) = features.split_last()?;
    Some((last.object, last.number))
}

/// The identifier of the last change.
fn last_change(changes: &[Change]) -> Option<(ObjectId, u32)>
    requires { IsStrictlySortedBy by_identifier changes.now }
    ensures { IsEnd (option_map identifier result) changes.now }
{
    let (last, _others) = changes.split_last()?;
    let feature = last.feature();
    Some((feature.object, feature.number))
}

/// The later one of the last of some features and the last change to them.
fn later_end(
    one: Option<(ObjectId, u32)>,
    other: Option<(ObjectId, u32)>,
) -> Option<(ObjectId, u32)>
    ensures { (xs ys : List Item) → IsStrictlySortedBy by_identifier xs → IsEnd (option_map identifier one) xs → IsEnd (option_map identifier other) ys → IsEnd (option_map identifier result) (all_in xs ys) }
{
    let Some(last) = other else {
        return one;
    };
    Some(later_of(one, last))
}

/// The identifier of the segment's last feature.
fn end_of(segment: &Segment) -> Option<(ObjectId, u32)>
    ensures { IsEnd (option_map identifier result) segment.now.features }
{
    let (indexed, changes) = segment.parts();
    let (base, older) = indexed.parts();
    let end = later_end(
        last_feature(base.features()),
        last_feature(older.features()),
    );
    later_end(end, last_change(changes))
}

/// Whether the identifier comes after the named one.
fn comes_after(last: (ObjectId, u32), named: Option<(ObjectId, u32)>) -> bool
    ensures { result ≡ is_beyond (option_map identifier named) (identifier last) }
{
    match named {
        None => true,
        Some(named) => compare_identifiers(last, named).is_gt(),
    }
}

/// The identifier of the last of the segment's features that come after the named one.
pub(crate) fn end_after(
    segment: &Segment,
    after: Option<(ObjectId, u32)>,
) -> Option<(ObjectId, u32)>
    ensures { IsEnd (option_map identifier result) (later (option_map identifier after) segment.now.features) }
{
    let last = end_of(segment)?;
    if comes_after(last, after) {
        Some(last)
    } else {
        None
    }
}
