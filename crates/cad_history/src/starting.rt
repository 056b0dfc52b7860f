//! The rows of the versions that a register stores.

ghost use Rattle.std.specs.Prelude.{◌≡◌, ◌≤◌, ◌<◌, ℕ, length, map, IfOk, OnOk};
ghost use Rattle.std.specs.List.{AllByRecursion};
ghost use Rattle.cad_versions.specs.AsOf.{versions_at};
ghost use Rattle.cad_versions.specs.Entries.{version_in};
ghost use Rattle.cad_versions.specs.Listing.{IsListing};
ghost use Rattle.cad_feature.specs.Features.{AreFeaturesOf};
ghost use Rattle.cad_feature.specs.Flatten.{features_in};
ghost use Rattle.cad_history.specs.Rows.{shown_at};
ghost use Rattle.cad_history.specs.inner.Starting.{AreOrdered, items_in, layers_of, pushed, pushed_at, rows_of};

use crate::ending::MOST_ROWS;
use cad_feature::{Feature, StoredVersions, is_in};
use cad_layer::Layer;
use cad_schema::Collection;
use cad_versions::StoredVersion;
use std::alloc::{AllocError, Global};

/// Adds the row to the list at that place, or a list of it behind the others.
fn push_at(
    alloc: Global,
    lists: &mut Vec<Vec<Feature>>,
    at: usize,
    row: Feature,
) -> Result<(), AllocError>
    requires { at ≤ length lists.old.items }
    ensures lists { OnOk result (map items_in lists.new.items ≡ pushed_at at row (map items_in lists.old.items)) }
    ensures more { OnOk result (at < length lists.new.items) }
{
    if at < lists.len() {
        lists[at].push(row)?;
        return Ok(());
    }
    let mut list = Vec::new(alloc);
    list.push(row)?;
    lists.push(list)?;
    Ok(())
}

/// Adds the rows of one version, each to a list of its own: the first to the first list, and so on.
fn push_rows(
    alloc: Global,
    lists: &mut Vec<Vec<Feature>>,
    rows: Vec<Feature>,
) -> Result<(), AllocError>
    ensures { OnOk result (map items_in lists.new.items ≡ pushed rows.items (map items_in lists.old.items)) }
{
    let mut at = 0;
    for row in rows {
        push_at(alloc, lists, at, row)?;
        at += 1;
    }
    Ok(())
}

/// The newest row of each version of the collection's class, and the earlier ones in lists of which each has at most one row of a version.
/// An error means out of memory.
pub(crate) fn all_rows(
    alloc: Global,
    entries: &[StoredVersion],
    newest: u32,
    collection: Collection,
) -> Result<(Vec<Feature>, Vec<Vec<Feature>>), AllocError>
    requires listing { IsListing (map version_in entries.now) }
    requires few { newest < 4294967295 }
    ensures rows { IfOk result (λ all. AreOrdered (rows_of collection newest all.0.items (map items_in all.1.items))) }
    ensures shown { IfOk result (λ all. (revision : ℕ) → revision ≤ newest →
        shown_at revision (rows_of collection newest all.0.items (map items_in all.1.items)) ≡ features_in (versions_at revision entries.now) collection) }
{
    let stored = StoredVersions::new(entries);
    let mut last = Vec::new(alloc);
    let mut earlier = Vec::new(alloc);
    let mut rest = entries;
    while let Some((entry, behind)) = rest.split_first() {
        if is_in(&entry.version, collection) && entry.is_entered_by(u64::from(newest)) {
            let rows = stored.rows(alloc, entry, newest, collection)?;
            last.push(rows.newest)?;
            push_rows(alloc, &mut earlier, rows.earlier)?;
        }
        rest = behind;
    }
    Ok((last, earlier))
}

/// The features of a list as a layer. An error means out of memory.
pub(crate) fn layer(
    alloc: Global,
    features: Vec<Feature>,
    collection: Collection,
) -> Result<Layer, AllocError>
    requires { AreFeaturesOf collection features.items }
    ensures { IfOk result (λ layer. layer ≡ record { collection = collection; features = features.items }) }
{
    if features.len() > MOST_ROWS {
        return Err(AllocError);
    }
    let layer = Layer::build(alloc, features, collection)?;
    Ok(layer)
}

/// Each of the lists as a layer. An error means out of memory.
pub(crate) fn layers(
    alloc: Global,
    lists: Vec<Vec<Feature>>,
    collection: Collection,
) -> Result<Vec<Layer>, AllocError>
    requires { AllByRecursion (AreFeaturesOf collection) (map items_in lists.items) }
    ensures { IfOk result (λ layers. layers.items ≡ layers_of collection (map items_in lists.items)) }
{
    let mut layers = Vec::with_capacity(alloc, lists.len())?;
    for list in lists {
        let layer = layer(alloc, list, collection)?;
        layers.push(layer)?;
    }
    Ok(layers)
}
