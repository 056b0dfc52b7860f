//! Copies of features.

ghost use Rattle.std.specs.Prelude.{◌≡◌, IfOk};

use cad_feature::Feature;
use std::alloc::{AllocError, Global};

/// A copy of the feature.
pub(crate) fn copy_feature(alloc: Global, feature: &Feature) -> Result<Feature, AllocError>
    ensures { IfOk result (λ copy. copy ≡ feature.now) }
{
    feature.copy(alloc, feature.period)
}
