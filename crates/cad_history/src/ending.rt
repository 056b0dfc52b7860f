//! Rows whose period a revision ends, and the lists of earlier rows that take them.

ghost use Rattle.std.specs.Prelude.{◌≡◌, ◌++◌, IfOk, OnOk, map};
ghost use Rattle.std.specs.Option.{option_copied};
ghost use Rattle.std.specs.List.{AllByRecursion};
ghost use Rattle.std.specs.List.Sorted.{IsStrictlySortedBy};
ghost use Rattle.cad_feature.specs.Features.{AreFeaturesOf, by_identifier};
ghost use Rattle.cad_index.specs.Layers.{LayerFeatures};
ghost use Rattle.cad_history.specs.inner.Ending.{absent_in, begun as begun_of, ended as ended_of, has_version as has_version_of, is_in_none as is_in_none_of, listed, one_more, present_in, replaced_by, with_ended};

use cad_feature::{Feature, Period};
use cad_layer::Layer;
use cad_schema::Collection;
use std::alloc::{AllocError, Global};

/// The most rows of a list: their positions are numbers of 32 bits.
pub(crate) const MOST_ROWS: usize = 4_294_967_295;

/// A copy of the row, whose period ends with the revision.
fn ended(alloc: Global, row: &Feature, revision: u32) -> Result<Feature, AllocError>
    ensures { IfOk result (λ copy. copy ≡ ended_of revision row.now) }
{
    let period = Period {
        start: row.period.start,
        end: revision,
    };
    row.copy(alloc, period)
}

/// The feature, whose period begins with the revision.
fn begun(feature: Feature, revision: u32) -> Feature
    ensures { result ≡ begun_of revision feature }
{
    feature.with_period(Period {
        start: revision,
        end: u32::MAX,
    })
}

/// The features, whose periods begin with the revision. An error means out of memory.
pub(crate) fn all_begun(
    alloc: Global,
    features: Vec<Feature>,
    revision: u32,
) -> Result<Vec<Feature>, AllocError>
    ensures { IfOk result (λ all. all.items ≡ map (begun_of revision) features.items) }
{
    let mut all = Vec::with_capacity(alloc, features.len())?;
    for feature in features {
        all.push(begun(feature, revision))?;
    }
    Ok(all)
}

/// Adds a copy of the row, whose period ends with the revision, if there is a row.
fn push_ended(
    alloc: Global,
    rows: &mut Vec<Feature>,
    row: Option<&Feature>,
    revision: u32,
) -> Result<(), AllocError>
    ensures { OnOk result (rows.new.items ≡ rows.old.items ++ map (ended_of revision) (listed (option_copied row.entry))) }
{
    if let Some(row) = row {
        rows.push(ended(alloc, row, revision)?)?;
    }
    Ok(())
}

/// Copies of the rows that these features replace, whose periods end with the revision. An error means out of memory.
pub(crate) fn all_ended(
    alloc: Global,
    newest: &Layer,
    touched: &[Feature],
    revision: u32,
) -> Result<Vec<Feature>, AllocError>
    requires { IsStrictlySortedBy by_identifier touched.now }
    ensures { IfOk result (λ all. all.items ≡ map (ended_of revision) (replaced_by touched.now newest.now.features)) }
{
    // The layer's features ascend.
    let _collection = newest.collection();
    let mut all = Vec::new(alloc);
    let mut rest = touched;
    while let Some((feature, behind)) = rest.split_first() {
        let row = newest.feature(feature.object, feature.number);
        push_ended(alloc, &mut all, row, revision)?;
        rest = behind;
    }
    Ok(all)
}

/// Whether the layer has a row of the feature's version. No memory is taken.
fn has_version(layer: &Layer, feature: &Feature) -> bool
    ensures { result ≡ has_version_of feature.now layer.now.features }
{
    let row = layer.feature(feature.object, feature.number);
    row.is_some()
}

/// Whether none of the lists has a row of the feature's version. No memory is taken.
fn is_in_none(layers: &[Layer], feature: &Feature) -> bool
    ensures { result ≡ is_in_none_of layers.now feature.now }
{
    let mut rest = layers;
    while let Some((layer, behind)) = rest.split_first() {
        if has_version(layer, feature) {
            return false;
        }
        rest = behind;
    }
    true
}

/// The rows of the versions that none of the lists has, and the others.
fn split(
    alloc: Global,
    layers: &[Layer],
    rows: Vec<Feature>,
) -> Result<(Vec<Feature>, Vec<Feature>), AllocError>
    ensures absent { IfOk result (λ parts. parts.0.items ≡ absent_in layers.now rows.items) }
    ensures present { IfOk result (λ parts. parts.1.items ≡ present_in layers.now rows.items) }
{
    let mut absent = Vec::new(alloc);
    let mut present = Vec::new(alloc);
    for row in rows {
        if is_in_none(layers, &row) {
            absent.push(row)?;
        } else {
            present.push(row)?;
        }
    }
    Ok((absent, present))
}

/// Adds a list of these rows, if there are any.
fn add_rest(
    alloc: Global,
    layers: &mut Vec<Layer>,
    rows: Vec<Feature>,
    collection: Collection,
) -> Result<(), AllocError>
    requires { AreFeaturesOf collection rows.items }
    ensures { OnOk result (layers.new.items ≡ layers.old.items ++ one_more collection rows.items) }
{
    if rows.is_empty() {
        return Ok(());
    }
    if rows.len() > MOST_ROWS {
        return Err(AllocError);
    }
    let layer = Layer::build(alloc, rows, collection)?;
    Ok(layers.push(layer)?)
}

/// The lists of earlier rows with these, each in the first list from which on none has a row of its version. An error means out of memory.
pub(crate) fn with_rows(
    alloc: Global,
    earlier: &[Layer],
    rows: Vec<Feature>,
    collection: Collection,
) -> Result<Vec<Layer>, AllocError>
    requires alike { AllByRecursion (λ (layer : LayerFeatures). layer.collection ≡ collection) earlier.now }
    requires listed { AreFeaturesOf collection rows.items }
    ensures { IfOk result (λ all. all.items ≡ with_ended collection earlier.now rows.items) }
{
    let mut all = Vec::with_capacity(alloc, earlier.len())?;
    let mut left = rows;
    let mut rest = earlier;
    while let Some((layer, behind)) = rest.split_first() {
        let (absent, present) = split(alloc, rest, left)?;
        all.push(layer.with(alloc, absent)?)?;
        left = present;
        rest = behind;
    }
    add_rest(alloc, &mut all, left, collection)?;
    Ok(all)
}
