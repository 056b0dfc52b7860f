//! Features by their identifiers, found by a search in their order.

ghost use Rattle.std.specs.Prelude.{◌≡◌};
ghost use Rattle.std.specs.Option.{option_copied};
ghost use Rattle.std.specs.List.Sorted.{IsStrictlySortedBy};
ghost use Rattle.cad_feature.specs.Features.{by_identifier};
ghost use Rattle.cad_layer.specs.Identifiers.{identifier, compared, of_object, IsTheOne};

use cad_feature::Feature;
use cad_versions::{ObjectId, compare_identifiers};
use std::cmp::Ordering;

/// How the feature compares with the one with that identifier.
pub(crate) fn compare(feature: &Feature, object: ObjectId, number: u32) -> Ordering
    ensures { result ≡ compared (identifier object number) feature.now }
{
    compare_identifiers((feature.object, feature.number), (object, number))
}

/// The features of that object, the oldest first.
pub(crate) fn run_of(features: &[Feature], object: ObjectId) -> &[Feature]
    requires { IsStrictlySortedBy by_identifier features.now }
    ensures { result.now ≡ of_object object features.now }
{
    let number = object.number();
    let first = features.partition_point(|feature| feature.object.number() < number);
    let rest = &features[first..];
    let count = rest.partition_point(|feature| feature.object.number() <= number);
    &rest[..count]
}

/// The feature with that identifier. No memory is taken.
pub fn found(features: &[Feature], object: ObjectId, number: u32) -> Option<&Feature>
    requires { IsStrictlySortedBy by_identifier features.now }
    ensures { IsTheOne (identifier object number) features.now (option_copied result) }
{
    let place = features.binary_search_by(|feature| compare(feature, object, number));
    match place {
        Ok(at) => Some(&features[at]),
        Err(_) => None,
    }
}
