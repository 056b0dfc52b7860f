//! The later one of two identifiers.

ghost use Rattle.std.specs.Prelude.{◌≡◌, ◌⊎◌, List, Some, option_map};
ghost use Rattle.cad_feature.specs.Features.{Item};
ghost use Rattle.cad_run.specs.Slices.{identifier, later};

use cad_versions::{ObjectId, compare_identifiers};

/// The later one of both.
pub(crate) fn later_of(after: Option<(ObjectId, u32)>, last: (ObjectId, u32)) -> (ObjectId, u32)
    ensures later { (xs : List Item) → later (Some (identifier result)) xs ≡ later (Some (identifier last)) (later (option_map identifier after) xs) }
    ensures one { (after ≡ Some result) ⊎ (result ≡ last) }
{
    let Some(after) = after else {
        return last;
    };
    if compare_identifiers(after, last).is_gt() {
        after
    } else {
        last
    }
}
