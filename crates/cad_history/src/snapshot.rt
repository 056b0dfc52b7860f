//! The register at one revision.

use crate::{FeaturesAt, Histories, History};
use cad_feature::Feature;
use cad_layer::OF_A_SEGMENT;
use cad_schema::Collection;
use cad_versions::{ObjectId, Version};
use std::alloc::{AllocError, Global};
use std::marker::Model;
use std::rc::Rc;

/// The features of each collection at a revision, by identifier, lent from histories which other revisions share.
///
/// Contracts see the revision, and the features of each collection as a list of items.
#[derive(Drop)]
pub struct Snapshot {
    revision: u64,
    histories: Rc<Histories>,
    /// The revision at which the rows are looked at. Without it, the newest rows are the features.
    moment: Option<u64>,
}

impl Model for Snapshot {
    ghost use Rattle.cad_history.specs.Snapshots.{RevisionFeatures, moment_features, with_features};

    ghost Value = { RevisionFeatures };

    ghost view = { λ s. with_features s.revision (moment_features s.moment s.histories.value) };
}

impl Snapshot {
    ghost use Rattle.std.specs.Prelude.{◌≡◌, ◌≤◌, List, IfOk, Some, length};
    ghost use Rattle.std.specs.Option.{option_copied};
    ghost use Rattle.cad_versions.specs.declared.command.Command.{Command as CommandOf};
    ghost use Rattle.cad_versions.specs.AsOf.{as_of};
    ghost use Rattle.cad_versions.specs.Listing.{IsListing};
    ghost use Rattle.cad_feature.specs.Features.{AreFeaturesOf};
    ghost use Rattle.cad_history.specs.Histories.{AreAllRowsOf};
    ghost use Rattle.cad_layer.specs.Identifiers.{identifier, IsTheOne};
    ghost use Rattle.cad_history.specs.Snapshots.{features_at, moment_features, with_features, IsSnapshotOf};

    /// The features of these versions, which are those of the revision. An error means out of memory.
    pub fn build(
        alloc: Global,
        revision: u64,
        versions: Vec<Version>,
    ) -> Result<Snapshot, AllocError>
        requires { IsListing versions.items }
        ensures { IfOk result (IsSnapshotOf revision versions.items) }
    {
        Snapshot::in_segments(alloc, revision, versions, OF_A_SEGMENT)
    }

    /// The same, with the features of a collection in segments of the given number, each with a base of its own. An error means
    /// out of memory.
    pub fn in_segments(
        alloc: Global,
        revision: u64,
        versions: Vec<Version>,
        of_a_segment: usize,
    ) -> Result<Snapshot, AllocError>
        requires { IsListing versions.items }
        ensures { IfOk result (IsSnapshotOf revision versions.items) }
    {
        let histories = Histories::of_each(alloc, |collection| {
            History::of_versions(alloc, &versions, collection, of_a_segment)
        })?;
        let histories = Rc::new(alloc, histories)?;
        Ok(Snapshot {
            revision,
            histories,
            moment: None,
        })
    }

    /// The features at the revision, lent from these histories. An error means that too many share them.
    pub fn at(histories: &Rc<Histories>, revision: u64) -> Result<Snapshot, AllocError>
        ensures features { IfOk result (λ s. s ≡ with_features revision (moment_features (Some revision) histories.now.value)) }
        ensures snapshot { IfOk result (λ s. (commands : List CommandOf) → AreAllRowsOf commands histories.now.value → revision ≤ length commands → IsSnapshotOf revision (as_of revision commands) s) }
    {
        // Each history is of its collection.
        let _parcels = histories.of(Collection::Parcels);
        let histories = histories.clone()?;
        Ok(Snapshot {
            revision,
            histories,
            moment: Some(revision),
        })
    }

    /// The same snapshot once more, lent from the same histories. An error means that too many share them.
    pub fn share(&self) -> Result<Snapshot, AllocError>
        ensures { IfOk result (λ s. s ≡ self.now) }
    {
        let histories = self.histories.clone()?;
        Ok(Snapshot {
            revision: self.revision,
            histories,
            moment: self.moment,
        })
    }

    /// How many commands were accepted up to this revision.
    pub fn revision(&self) -> u64
        ensures { result ≡ self.now.revision }
    {
        self.revision
    }

    /// The collection's feature that is the version of that object with that number. No memory is taken.
    pub fn feature(&self, collection: Collection, object: ObjectId, number: u32) -> Option<&Feature>
        ensures one { IsTheOne (identifier object number) (features_at self.now collection) (option_copied result) }
        ensures listed { AreFeaturesOf collection (features_at self.now collection) }
    {
        let features = self.features(collection);
        // They ascend.
        let _collection = features.collection();
        features.feature(object, number)
    }

    /// The features of the collection, by the rows of which they are lent. No memory is taken.
    pub fn features(&self, collection: Collection) -> FeaturesAt<'_>
        ensures collection { result.collection ≡ collection }
        ensures features { result.features ≡ features_at self.now collection }
    {
        let history = self.histories.of(collection);
        match self.moment {
            None => FeaturesAt::newest(history.newest()),
            Some(revision) => FeaturesAt::of(history, revision),
        }
    }
}
