//! Where features come from, by steps that are counted.

ghost use Rattle.std.specs.Prelude.{◌≡◌, ℕ, List, IfOk, Some};
ghost use Rattle.cad_feature.specs.Features.{Item};
ghost use Rattle.cad_run.specs.Counts.{counted};
ghost use Rattle.cad_run.specs.Slices.{identifier, later};
ghost use Rattle.cad_run.specs.Steps.{GoesOn, IsStep};

use crate::stepped_source::Step;
use cad_versions::ObjectId;
use std::alloc::AllocError;

/// A source that counts its steps. So a contract can say how many steps a function made, also one that says nothing of it.
pub trait CountedSource<'a>: Drop {
    /// The features that are left.
    ghost left: { Self → List Item };

    /// The features among which it looks for them, as far as it has not passed them.
    ghost ahead: { Self → List Item };

    /// How many steps were made.
    ghost steps: { Self → ℕ };

    /// One step. An error means out of memory; what is left then is not said.
    fn step(&mut self) -> Result<Step<'a>, AllocError>
        ensures step { IfOk result (λ step. IsStep (left self.old) step (left self.new)) }
        ensures onward { IfOk result (λ step. GoesOn (ahead self.old) step (ahead self.new)) }
        ensures counted { steps self.new ≡ counted (steps self.old) };

    /// Drops what is left up to the named feature, which need not be one of them.
    fn seek(&mut self, last: (ObjectId, u32))
        ensures left { left self.new ≡ later (Some (identifier last)) (left self.old) }
        ensures ahead { ahead self.new ≡ later (Some (identifier last)) (ahead self.old) }
        ensures counted { steps self.new ≡ steps self.old };
}
