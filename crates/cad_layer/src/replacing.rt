//! The features that changes replace.

ghost use Rattle.std.specs.Prelude.{◌≡◌, ◌++◌, IfOk, OnOk};
ghost use Rattle.cad_feature.specs.Features.{by_identifier};
ghost use Rattle.cad_layer.specs.inner.Replaced.{replaced_in, twins};

use crate::Change;
use crate::change::as_changes;
use crate::copies::copy_feature;
use crate::findable::Findable;
use cad_feature::Feature;
use std::alloc::{AllocError, Global};

/// Puts the feature that the change replaces behind the others, if there is one.
fn push_replaced<T: Findable>(
    alloc: Global,
    features: &T,
    change: &Change,
    all: &mut Vec<Feature>,
) -> Result<(), AllocError>
    ensures { OnOk result (all.new.items ≡ all.old.items ++ twins by_identifier change.now (T.features features.now)) }
{
    let change = change.feature();
    let Some(feature) = features.find(change.object, change.number) else {
        return Ok(());
    };
    let feature = copy_feature(alloc, feature)?;
    all.push(feature)?;
    Ok(())
}

/// Copies of the features that the changes replace: each is searched for. An error means out of memory.
pub(crate) fn replaced_by<T: Findable>(
    alloc: Global,
    features: &T,
    changes: &[Change],
) -> Result<Vec<Change>, AllocError>
    ensures { IfOk result (λ all. all.items ≡ replaced_in by_identifier (T.features features.now) changes.now) }
{
    let mut all = Vec::new(alloc);
    let mut rest = changes;
    while let Some((change, behind)) = rest.split_first() {
        push_replaced(alloc, features, change, &mut all)?;
        rest = behind;
    }
    as_changes(alloc, all)
}
