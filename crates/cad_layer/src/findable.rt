//! Collections of features in which one can be found.

use crate::Indexed;
use crate::finding::found;
use cad_feature::Feature;
use cad_index::Base;
use cad_versions::ObjectId;

/// Features, one of which can be found by its identifier.
pub(crate) trait Findable {
    ghost use Rattle.std.specs.Prelude.{List};
    ghost use Rattle.std.specs.Option.{option_copied};
    ghost use Rattle.cad_feature.specs.Features.{Item};
    ghost use Rattle.cad_layer.specs.Identifiers.{identifier, IsTheOne};
    ghost use Rattle.std.specs.List.Sorted.{IsStrictlySortedBy};
    ghost use Rattle.cad_feature.specs.Features.{by_identifier};

    /// The features.
    ghost features: { Self → List Item };

    /// The feature that is the version of that object with that number. No memory is taken.
    fn find(&self, object: ObjectId, number: u32) -> Option<&Feature>
        ensures one { IsTheOne (identifier object number) (features self.now) (option_copied result) }
        ensures order { IsStrictlySortedBy by_identifier (features self.now) };
}

impl Findable for Base {
    ghost features = { λ b. b.features };

    fn find(&self, object: ObjectId, number: u32) -> Option<&Feature> {
        found(self.features(), object, number)
    }
}

impl Findable for Indexed {
    ghost features = { λ f. f.features };

    fn find(&self, object: ObjectId, number: u32) -> Option<&Feature> {
        self.feature(object, number)
    }
}
