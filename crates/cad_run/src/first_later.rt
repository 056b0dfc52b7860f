//! The position from which on features come after a named one.

ghost use Rattle.std.specs.Prelude.{◌≡◌, ◌≤◌, length, Some};
ghost use Rattle.std.specs.List.Sorted.{IsStrictlySortedBy};
ghost use Rattle.cad_feature.specs.Features.{by_identifier};
ghost use Rattle.cad_run.specs.Positions.{PassFrom};
ghost use Rattle.cad_run.specs.Slices.{identifier, is_later};

use cad_feature::Feature;
use cad_versions::{ObjectId, compare_identifiers};

/// Whether the feature comes after the named one.
pub(crate) fn comes_after(feature: &Feature, last: (ObjectId, u32)) -> bool
    ensures { result ≡ is_later (Some (identifier last)) feature.now }
{
    compare_identifiers((feature.object, feature.number), last).is_gt()
}

/// The position of the first feature after that one, by a search in their order.
pub(crate) fn first_later(features: &[Feature], last: (ObjectId, u32)) -> usize
    requires { IsStrictlySortedBy by_identifier features.now }
    ensures rest { PassFrom (is_later (Some (identifier last))) features.now result }
    ensures within { result ≤ length features.now }
{
    features.partition_point(|feature| !comes_after(feature, last))
}
