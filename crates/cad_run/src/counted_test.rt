//! Which features are wanted, and how many were tested.

ghost use Rattle.std.specs.Prelude.{◌≡◌, ℕ, Bool, IfOk};
ghost use Rattle.cad_run.specs.Counts.{counted};
ghost use Rattle.cad_feature.specs.Features.{Item};

use cad_feature::Feature;
use std::alloc::AllocError;

/// A test of features that counts its calls. So a contract can say how many features a function tested, also one that says nothing of it.
pub trait CountedTest {
    /// Whether a feature passes.
    ghost passes: { Self → Item → Bool };

    /// How many features were tested.
    ghost tested: { Self → ℕ };

    /// Whether the feature passes. An error means out of memory.
    fn test(&mut self, feature: &Feature) -> Result<bool, AllocError>
        ensures passed { IfOk result (λ passed. passed ≡ passes self.old feature.now) }
        ensures same { passes self.new ≡ passes self.old }
        ensures counted { tested self.new ≡ counted (tested self.old) };
}
