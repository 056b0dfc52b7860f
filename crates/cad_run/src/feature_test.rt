//! Which features are wanted.

ghost use Rattle.std.specs.Prelude.{◌≡◌, Bool, IfOk};
ghost use Rattle.cad_feature.specs.Features.{Item};

use cad_feature::Feature;
use std::alloc::AllocError;

/// A test of features.
pub trait FeatureTest {
    /// Whether a feature passes.
    ghost passes: { Self → Item → Bool };

    /// Whether the feature passes. An error means out of memory.
    fn test(&self, feature: &Feature) -> Result<bool, AllocError>
        ensures { IfOk result (λ passed. passed ≡ passes self.now feature.now) };
}
