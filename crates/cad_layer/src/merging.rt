//! Lists of features with changes merged into them.

ghost use Rattle.std.specs.Prelude.{◌≡◌, ◌++◌, IfOk, OnOk};
ghost use Rattle.cad_layer.specs.Walks.{all_in, IsInOrder};

use crate::copies::copy_feature;
use crate::{Change, Walk};
use cad_feature::Feature;
use std::alloc::{AllocError, Global};

/// Puts copies of the rest of a walk behind the others. An error means out of memory.
pub(crate) fn push_all(
    alloc: Global,
    all: &mut Vec<Feature>,
    walk: Walk<'_>,
) -> Result<(), AllocError>
    ensures { OnOk result (all.new.items ≡ all.old.items ++ walk.entry) }
{
    let mut walk = walk;
    while let Some(feature) = walk.next() {
        let feature = copy_feature(alloc, feature)?;
        all.push(feature)?;
    }
    Ok(())
}

/// The base with the changes, all by copies. An error means out of memory.
pub fn merge(
    alloc: Global,
    base: &[Feature],
    changes: &[Change],
) -> Result<Vec<Feature>, AllocError>
    requires { IsInOrder base.now changes.now }
    ensures { IfOk result (λ all. all.items ≡ all_in base.now changes.now) }
{
    let mut all = Vec::with_capacity(alloc, base.len() + changes.len())?;
    push_all(alloc, &mut all, Walk::new(base, &[], changes))?;
    Ok(all)
}
