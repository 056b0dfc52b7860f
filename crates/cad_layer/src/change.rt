//! Changes to a base.

ghost use Rattle.std.specs.Prelude.{◌≡◌, IfOk};

use cad_feature::Feature;
use std::alloc::{AllocError, Global};
use std::marker::Model;
use std::rc::Rc;

/// A feature that replaces one of a base, or is new to the base. Copies share it.
///
/// Contracts see the feature.
#[derive(Debug, Drop)]
pub struct Change {
    feature: Rc<Feature>,
}

impl Model for Change {
    ghost use Rattle.cad_feature.specs.Features.{Item};

    ghost Value = { Item };

    ghost view = { λ change. change.feature.value };
}

impl Change {
    ghost use Rattle.std.specs.Prelude.{◌≡◌, IfOk};

    /// The feature as a change.
    pub fn new(alloc: Global, feature: Feature) -> Result<Change, AllocError>
        ensures { IfOk result (λ change. change ≡ feature) }
    {
        let feature = Rc::new(alloc, feature)?;
        Ok(Change { feature })
    }

    /// The feature.
    pub fn feature(&self) -> &Feature
        ensures { result.now ≡ self.now }
    {
        self.feature.as_ref()
    }

    /// A copy. An error means that too many share it.
    pub(crate) fn copy(&self) -> Result<Change, AllocError>
        ensures { IfOk result (λ copy. copy ≡ self.now) }
    {
        let feature = self.feature.clone()?;
        Ok(Change { feature })
    }
}

/// The features as changes. An error means out of memory.
pub fn as_changes(alloc: Global, features: Vec<Feature>) -> Result<Vec<Change>, AllocError>
    ensures { IfOk result (λ changes. changes.items ≡ features.items) }
{
    let mut changes = Vec::with_capacity(alloc, features.len())?;
    for feature in features {
        let change = Change::new(alloc, feature)?;
        changes.push(change)?;
    }
    Ok(changes)
}
