//! Whether a change replaces a feature.

ghost use Rattle.std.specs.Prelude.{◌≡◌};
ghost use Rattle.std.specs.List.Sorted.{IsStrictlySortedBy};
ghost use Rattle.cad_feature.specs.Features.{by_identifier};
ghost use Rattle.cad_run.specs.Standing.{is_replaced as is_replaced_of};

use cad_feature::Feature;
use cad_layer::found;

/// Whether one of the changes replaces the feature, by a search in their order.
pub(crate) fn is_replaced(changes: &[Feature], feature: &Feature) -> bool
    requires { IsStrictlySortedBy by_identifier changes.now }
    ensures { result ≡ is_replaced_of changes.now feature.now }
{
    match found(changes, feature.object, feature.number) {
        None => false,
        Some(_) => true,
    }
}
