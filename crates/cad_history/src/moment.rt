//! The features of a collection at a revision.

ghost use Rattle.std.specs.Option.{option_copied};
ghost use Rattle.cad_index.specs.Layers.{LayerFeatures};
ghost use Rattle.cad_layer.specs.Identifiers.{identifier, IsTheOne};
ghost use Rattle.std.specs.Prelude.{◌≡◌, Some};
ghost use Rattle.cad_history.specs.Lent.{features_lent};
ghost use Rattle.cad_history.specs.Rows.{AllAscend, earlier_at, rows_at};
ghost use Rattle.cad_history.specs.inner.Found.{later_or as later_or_of, shown as shown_of};

use crate::History;
use crate::counting::{Counted, count_lent};
use cad_feature::{Feature, Range};
use cad_layer::Layer;
use cad_schema::Collection;
use cad_shape::Bounds;
use cad_versions::ObjectId;
use std::marker::Model;

/// The earlier rows of a collection, and a revision.
#[derive(Clone, Copy)]
pub struct Past<'a> {
    /// The earlier rows, in lists of which each has at most one row of a version.
    pub earlier: &'a [Layer],
    /// The revision, as the number of commands up to it.
    pub revision: u64,
}

/// The features of a collection at a revision, lent by its history.
///
/// Contracts see the collection and the features.
#[derive(Drop)]
pub struct FeaturesAt<'a> {
    newest: &'a Layer,
    /// Without it, all newest rows are features at the revision, and no earlier one is.
    past: Option<Past<'a>>,
}

impl<'a> Model for FeaturesAt<'a> {
    ghost use Rattle.cad_index.specs.Layers.{LayerFeatures};
    ghost use Rattle.cad_history.specs.Lent.{AreLent, features_lent};

    ghost Value = { LayerFeatures };

    ghost view = { λ f. record { collection = f.newest.now.collection; features = features_lent f.newest.now.features f.past } };

    ghost invariant = { λ f. AreLent f.newest.now f.past };
}

/// The row, if it has its values at the revision.
fn shown(row: Option<&Feature>, revision: u64) -> Option<&Feature>
    ensures { option_copied result ≡ shown_of revision (option_copied row.entry) }
{
    match row {
        None => None,
        Some(row) => if row.period.contains(revision) {
            Some(row)
        } else {
            None
        },
    }
}

/// The layer's row of the version with that number, if it has its values at the revision. No memory is taken.
fn row_at(layer: &Layer, object: ObjectId, number: u32, revision: u64) -> Option<&Feature>
    ensures { IsTheOne (identifier object number) (rows_at revision layer.now.features) (option_copied result) }
{
    // The layer's features ascend.
    let _collection = layer.collection();
    shown(layer.feature(object, number), revision)
}

/// The later row, or else the earlier one.
fn later_or<'a>(later: Option<&'a Feature>, earlier: Option<&'a Feature>) -> Option<&'a Feature>
    ensures { option_copied result ≡ later_or_of (option_copied later.entry) (option_copied earlier.entry) }
{
    match later {
        None => earlier,
        Some(row) => Some(row),
    }
}

/// The earlier row of the version with that number that has its values at the revision. No memory is taken.
fn earlier_row(layers: &[Layer], object: ObjectId, number: u32, revision: u64) -> Option<&Feature>
    requires { AllAscend layers.now }
    ensures { IsTheOne (identifier object number) (earlier_at revision layers.now) (option_copied result) }
{
    let mut found = None;
    let mut rest = layers;
    while let Some((layer, behind)) = rest.split_first() {
        found = later_or(row_at(layer, object, number, revision), found);
        rest = behind;
    }
    found
}

/// The feature at the revision that is the version with that number. No memory is taken.
fn feature_in<'a>(
    newest: &'a Layer,
    past: Past<'a>,
    object: ObjectId,
    number: u32,
) -> Option<&'a Feature>
    requires { AllAscend past.earlier.now }
    ensures { IsTheOne (identifier object number) (features_lent newest.now.features (Some past.entry)) (option_copied result) }
{
    // The rows ascend.
    let _collection = newest.collection();
    let row = row_at(newest, object, number, past.revision);
    if row.is_some() {
        return row;
    }
    earlier_row(past.earlier, object, number, past.revision)
}

impl<'a> FeaturesAt<'a> {
    ghost use Rattle.std.specs.Prelude.{◌≡◌, length};
    ghost use Rattle.std.specs.Option.{option_copied};
    ghost use Rattle.cad_feature.specs.Features.{AreFeaturesOf};
    ghost use Rattle.cad_feature.specs.Limits.{limit_of};
    ghost use Rattle.cad_grid.specs.Blocks.{block_of};
    ghost use Rattle.cad_layer.specs.Identifiers.{identifier, IsTheOne};
    ghost use Rattle.cad_lookup.specs.Ways.{counts_of};
    ghost use Rattle.cad_history.specs.Lent.{AreLent, features_lent};
    ghost use Rattle.cad_history.specs.Rows.{features_at};

    /// Those of the history at the revision.
    pub fn of(history: &'a History, revision: u64) -> FeaturesAt<'a>
        ensures { result ≡ record { collection = history.now.collection; features = features_at revision history.now } }
    {
        // The rows are in turn.
        let _collection = history.collection();
        if u64::from(history.last()) <= revision && revision < u64::from(u32::MAX) {
            return FeaturesAt::newest(history.newest());
        }
        FeaturesAt {
            newest: history.newest(),
            past: Some(Past {
                earlier: history.earlier(),
                revision,
            }),
        }
    }

    /// All features of the layer.
    pub fn newest(layer: &'a Layer) -> FeaturesAt<'a>
        ensures { result ≡ layer.now }
    {
        FeaturesAt {
            newest: layer,
            past: None,
        }
    }

    /// The rows that are looked at: the newest, and the earlier ones with the revision, unless all the newest are the features.
    pub fn parts(&self) -> (&'a Layer, Option<Past<'a>>)
        ensures collection { result.0.now.collection ≡ self.now.collection }
        ensures features { features_lent result.0.now.features result.1 ≡ self.now.features }
        ensures rows { AreLent result.0.now result.1 }
    {
        (self.newest, self.past)
    }

    /// The collection whose features they are.
    pub fn collection(&self) -> Collection
        ensures collection { result ≡ self.now.collection }
        ensures listed { AreFeaturesOf result self.now.features }
    {
        self.newest.collection()
    }

    /// The feature that is the version of that object with that number. No memory is taken.
    pub fn feature(&self, object: ObjectId, number: u32) -> Option<&'a Feature>
        ensures { IsTheOne (identifier object number) self.now.features (option_copied result) }
    {
        match self.past {
            None => self.newest.feature(object, number),
            Some(past) => feature_in(self.newest, past, object, number),
        }
    }

    /// How many features there are. No memory is taken.
    pub fn count(&self) -> u64
        ensures { result ≡ length self.now.features }
    {
        match self.past {
            None => self.newest.count(),
            Some(past) => count_lent(self.newest, past, Counted::Every),
        }
    }

    /// How many features have a value in the range. No memory is taken.
    pub fn count_in(&self, range: &Range) -> u64
        ensures { result ≡ (counts_of self.now.features).between range.now.property (limit_of range.now.low) (limit_of range.now.high) }
    {
        match self.past {
            None => self.newest.count_in(range),
            Some(past) => count_lent(self.newest, past, Counted::InRange(range)),
        }
    }

    /// How many features are near the box. No memory is taken.
    pub fn count_near(&self, property: usize, bounds: Bounds) -> u64
        ensures { result ≡ (counts_of self.now.features).near property (block_of bounds) }
    {
        match self.past {
            None => self.newest.count_near(property, bounds),
            Some(past) => count_lent(self.newest, past, Counted::Near { property, bounds }),
        }
    }
}
