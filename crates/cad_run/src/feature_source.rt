//! Where features come from.

ghost use Rattle.std.specs.Prelude.{◌≡◌, ◌<◌, ◌^◌, List, [], ◌∷◌, length, IfOk, MatchOption, Some};
ghost use Rattle.std.specs.List.Sorted.{IsStrictlySortedBy};
ghost use Rattle.cad_feature.specs.Features.{by_identifier, Item};
ghost use Rattle.cad_run.specs.Slices.{identifier, later};

use cad_feature::Feature;
use cad_versions::ObjectId;
use std::alloc::AllocError;

/// Features that ascend by identifier, each once, no matter how they are found. A source that gave nothing gives nothing again.
pub trait FeatureSource<'a>: Drop {
    /// The features that are left.
    ghost left: { Self → List Item };

    /// Takes the first feature that is left. An error means out of memory; what is left then is not said.
    fn next(&mut self) -> Result<Option<&'a Feature>, AllocError>
        ensures { IfOk result (λ found. MatchOption found ((left self.old ≡ []) × (left self.new ≡ [])) (λ x. left self.old ≡ x.now ∷ left self.new)) };

    /// Drops what is left up to the named feature, which need not be one of them.
    fn seek(&mut self, last: (ObjectId, u32))
        ensures { left self.new ≡ later (Some (identifier last)) (left self.old) };

    /// They ascend, without duplicates.
    ghost ascends: { (s : Self) → IsStrictlySortedBy by_identifier (left s) };

    /// There are fewer than a counter can hold.
    ghost bounded: { (s : Self) → length (left s) < 2 ^ 64 };
}
