//! Where features come from, by steps.

ghost use Rattle.std.specs.Prelude.{◌≡◌, List, IfOk, Some};
ghost use Rattle.cad_feature.specs.Features.{Item};
ghost use Rattle.cad_run.specs.Slices.{identifier, later};
ghost use Rattle.cad_run.specs.Steps.{GoesOn, IsStep};

use cad_feature::Feature;
use cad_versions::ObjectId;
use std::alloc::AllocError;

/// What a step gives.
pub enum Step<'a> {
    /// The first feature that was left.
    Found(&'a Feature),
    /// No feature: a segment without one was passed. All that is left comes after this identifier.
    Passed((ObjectId, u32)),
    /// None is left.
    Over,
}

/// Features that ascend by identifier, each once. A step does bounded work: it opens or passes one segment at most.
pub trait SteppedSource<'a>: Drop {
    /// The features that are left.
    ghost left: { Self → List Item };

    /// The features among which it looks for them, as far as it has not passed them.
    ghost ahead: { Self → List Item };

    /// One step. An error means out of memory; what is left then is not said.
    fn step(&mut self) -> Result<Step<'a>, AllocError>
        ensures step { IfOk result (λ step. IsStep (left self.old) step (left self.new)) }
        ensures onward { IfOk result (λ step. GoesOn (ahead self.old) step (ahead self.new)) };

    /// Drops what is left up to the named feature, which need not be one of them.
    fn seek(&mut self, last: (ObjectId, u32))
        ensures left { left self.new ≡ later (Some (identifier last)) (left self.old) }
        ensures ahead { ahead self.new ≡ later (Some (identifier last)) (ahead self.old) };
}
