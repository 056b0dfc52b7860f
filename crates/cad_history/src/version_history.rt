//! The history of versions of one revision.

ghost use Rattle.std.specs.Prelude.{IfOk};
ghost use Rattle.cad_versions.specs.Listing.{IsListing};
ghost use Rattle.cad_history.specs.inner.Built.{AreAllFeatures};

use crate::history::History;
use cad_feature::{Feature, flatten};
use cad_layer::Layer;
use cad_schema::Collection;
use cad_versions::Version;
use std::alloc::{AllocError, Global};

/// The features of the collection among these versions. They are fewer than positions of 32 bits.
fn features(
    alloc: Global,
    versions: &[Version],
    collection: Collection,
) -> Result<Vec<Feature>, AllocError>
    requires { IsListing versions.now }
    ensures { IfOk result (λ features. AreAllFeatures versions.now collection features.items) }
{
    let features = flatten(alloc, versions, collection)?;
    Ok(features)
}

impl History {
    ghost use Rattle.std.specs.Prelude.{◌≡◌, IfOk};
    ghost use Rattle.cad_versions.specs.Listing.{IsListing};
    ghost use Rattle.cad_feature.specs.Flatten.{features_in};
    ghost use Rattle.cad_history.specs.Rows.{newest_alone};

    /// The features of the collection among these versions, in segments of the given number, each with a base of its own. An error means
    /// out of memory.
    pub fn of_versions(
        alloc: Global,
        versions: &[Version],
        collection: Collection,
        of_a_segment: usize,
    ) -> Result<History, AllocError>
        requires { IsListing versions.now }
        ensures { IfOk result (λ history. history ≡ newest_alone collection (features_in versions.now collection)) }
    {
        let features = features(alloc, versions, collection)?;
        let newest = Layer::in_segments(alloc, features, collection, of_a_segment)?;
        Ok(History::of_layers(newest, Vec::new(alloc), 0))
    }
}
