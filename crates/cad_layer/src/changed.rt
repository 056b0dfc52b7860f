//! Changes by the identifiers of their features, found by a search in their order.

ghost use Rattle.std.specs.Prelude.{◌≡◌};
ghost use Rattle.std.specs.Option.{option_copied};
ghost use Rattle.std.specs.List.Sorted.{IsStrictlySortedBy};
ghost use Rattle.cad_feature.specs.Features.{by_identifier};
ghost use Rattle.cad_versions.specs.Objects.{object_number};
ghost use Rattle.cad_layer.specs.Identifiers.{identifier, compared, comes_after as is_after, items_after, of_object, IsTheOne};

use crate::Change;
use crate::finding::compare;
use cad_feature::Feature;
use cad_versions::ObjectId;
use std::cmp::Ordering;

fn object_of(change: &Change) -> u32
    ensures { result ≡ object_number change.now.object }
{
    change.feature().object.number()
}

fn compare_change(change: &Change, object: ObjectId, number: u32) -> Ordering
    ensures { result ≡ compared (identifier object number) change.now }
{
    compare(change.feature(), object, number)
}

fn comes_after(change: &Change, object: ObjectId, number: u32) -> bool
    ensures { result ≡ is_after (identifier object number) change.now }
{
    compare_change(change, object, number).is_gt()
}

/// The changes after the one with that identifier.
pub fn changes_after(changes: &[Change], object: ObjectId, number: u32) -> &[Change]
    requires { IsStrictlySortedBy by_identifier changes.now }
    ensures { result.now ≡ items_after (identifier object number) changes.now }
{
    let first = changes.partition_point(|change| !comes_after(change, object, number));
    &changes[first..]
}

/// The changes whose features are of that object, the oldest first.
pub(crate) fn changes_to(changes: &[Change], object: ObjectId) -> &[Change]
    requires { IsStrictlySortedBy by_identifier changes.now }
    ensures { result.now ≡ of_object object changes.now }
{
    let number = object.number();
    let first = changes.partition_point(|change| object_of(change) < number);
    let rest = &changes[first..];
    let count = rest.partition_point(|change| object_of(change) <= number);
    &rest[..count]
}

/// The feature among the changes with that identifier.
pub(crate) fn changed(changes: &[Change], object: ObjectId, number: u32) -> Option<&Feature>
    requires { IsStrictlySortedBy by_identifier changes.now }
    ensures { IsTheOne (identifier object number) changes.now (option_copied result) }
{
    let place = changes.binary_search_by(|change| compare_change(change, object, number));
    match place {
        Ok(at) => Some(changes[at].feature()),
        Err(_) => None,
    }
}
