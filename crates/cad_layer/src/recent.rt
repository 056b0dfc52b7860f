//! The changes that are in no index yet.

ghost use Rattle.std.specs.Prelude.{◌≡◌, [], IfOk};
ghost use Rattle.cad_feature.specs.Features.{AreFeaturesOf};
ghost use Rattle.cad_layer.specs.inner.Recent.{AreRecent};
ghost use Rattle.cad_layer.specs.Walks.{all_in};

use crate::adding::with_later;
use crate::change::as_changes;
use crate::replacing::replaced_by;
use crate::{Change, Indexed};
use cad_extents::Extents;
use cad_feature::Feature;
use std::alloc::{AllocError, Global};

/// Recent changes to indexed features, the features that they replace, and the extents of all.
#[derive(Drop)]
pub(crate) struct Recent {
    pub(crate) changes: Vec<Change>,
    pub(crate) replaced: Vec<Change>,
    pub(crate) extents: Extents,
}

impl Recent {
    /// No changes to features with these extents.
    pub(crate) fn none(alloc: Global, extents: Extents) -> Recent
        ensures changes { result.changes.items ≡ [] }
        ensures replaced { result.replaced.items ≡ [] }
        ensures extents { result.extents ≡ extents }
    {
        Recent {
            changes: Vec::new(alloc),
            replaced: Vec::new(alloc),
            extents,
        }
    }

    /// These changes to the indexed features, and later ones. An error means out of memory.
    pub(crate) fn with(
        &self,
        alloc: Global,
        indexed: &Indexed,
        touched: Vec<Feature>,
    ) -> Result<Recent, AllocError>
        requires recent { AreRecent indexed.now self.now }
        requires listed { AreFeaturesOf indexed.now.collection touched.items }
        ensures recent { IfOk result (AreRecent indexed.now) }
        ensures changes { IfOk result (λ recent. recent.changes.items ≡ all_in self.now.changes.items touched.items) }
    {
        let extents = self.extents.with(alloc, &touched)?;
        let touched = as_changes(alloc, touched)?;
        let changes = with_later(alloc, &self.changes, &touched)?;
        let more = replaced_by(alloc, indexed, &touched)?;
        let replaced = with_later(alloc, &self.replaced, &more)?;
        Ok(Recent {
            changes,
            replaced,
            extents,
        })
    }
}
