//! Where the features of a segment come from, once its indexes were asked.

ghost use Rattle.std.specs.Prelude.{◌≡◌, List, [], ◌∷◌, MatchOption, Some};
ghost use Rattle.cad_feature.specs.Features.{Item};
ghost use Rattle.cad_run.specs.Slices.{identifier, later};

use cad_feature::Feature;
use cad_versions::ObjectId;

/// Features that ascend by identifier, for which no more memory is needed. A source that gave nothing gives nothing again.
pub(crate) trait IndexedSource<'a>: Drop {
    /// The features that are left.
    ghost left: { Self → List Item };

    /// Takes the first feature that is left.
    fn next(&mut self) -> Option<&'a Feature>
        ensures { MatchOption result ((left self.old ≡ []) × (left self.new ≡ [])) (λ x. left self.old ≡ x.now ∷ left self.new) };

    /// Drops what is left up to the named feature, which need not be one of them.
    fn seek(&mut self, last: (ObjectId, u32))
        ensures { left self.new ≡ later (Some (identifier last)) (left self.old) };
}
