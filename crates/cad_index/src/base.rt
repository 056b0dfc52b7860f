//! Features of a collection with their indexes.

ghost use Rattle.std.specs.Prelude.{◌≡◌, ◌≤◌, IfOk, length};
ghost use Rattle.cad_feature.specs.Features.{AreFeaturesOf};
ghost use Rattle.cad_index.specs.Indexed.{AreIndexesOf};

use crate::Indexes;
use crate::counting::{ShownAt, count_shown};
use crate::laws::{grids_count_features, ranges_count_features};
use crate::periods::{Periods, Shown};
use cad_feature::{Feature, Range};
use cad_schema::Collection;
use cad_shape::Bounds;
use std::alloc::{AllocError, Global};
use std::marker::Model;

/// Features of a collection, by identifier, with their indexes. They never change. Contracts see the collection and the features.
#[derive(Drop)]
pub struct Base {
    collection: Collection,
    features: Vec<Feature>,
    indexes: Indexes,
    periods: Periods,
}

impl Model for Base {
    ghost use Rattle.cad_feature.specs.Features.{AreFeaturesOf};
    ghost use Rattle.cad_index.specs.Layers.{LayerFeatures};
    ghost use Rattle.std.specs.Prelude.{◌≤◌, length};
    ghost use Rattle.cad_index.specs.Indexed.{AreIndexesOf};
    ghost use Rattle.cad_index.specs.inner.Periods.{AreTimesOf};

    ghost Value = { LayerFeatures };

    ghost view = { λ l. record { collection = l.collection; features = l.features.items } };

    ghost invariant = { λ l. AreFeaturesOf l.collection l.features.items × AreIndexesOf l.collection l.features.items l.indexes × (length l.features.items ≤ 4294967295) × AreTimesOf l.periods l.features.items };
}

impl Base {
    ghost use Rattle.std.specs.Prelude.{◌≡◌, ◌≤◌, IfOk, filter, length};
    ghost use Rattle.cad_grid.specs.Blocks.{block_of};
    ghost use Rattle.cad_grid.specs.Near.{is_near};
    ghost use Rattle.cad_feature.specs.Features.{AreFeaturesOf};
    ghost use Rattle.cad_range.specs.Ranges.{lies_in};
    ghost use Rattle.cad_index.specs.Indexed.{AreIndexesOf};
    ghost use Rattle.cad_index.specs.Moments.{AreShown, rows_at};

    /// These features of the collection with their indexes. An error means out of memory.
    pub fn build(
        alloc: Global,
        features: Vec<Feature>,
        collection: Collection,
    ) -> Result<Base, AllocError>
        requires small { length features.items ≤ 4294967295 }
        requires listed { AreFeaturesOf collection features.items }
        ensures { IfOk result (λ base. base ≡ record { collection = collection; features = features.items }) }
    {
        let indexes = Indexes::build(alloc, &features, collection)?;
        let periods = Periods::of(alloc, &features)?;
        Ok(Base {
            collection,
            features,
            indexes,
            periods,
        })
    }

    /// The collection whose features they are.
    pub fn collection(&self) -> Collection
        ensures collection { result ≡ self.now.collection }
        ensures listed { AreFeaturesOf result self.now.features }
    {
        self.collection
    }

    /// The features, by object and number.
    pub fn features(&self) -> &[Feature]
        ensures features { result.now ≡ self.now.features }
        ensures listed { AreFeaturesOf self.now.collection result.now }
        ensures few { length result.now ≤ 4294967295 }
    {
        &self.features
    }

    /// Their indexes.
    pub fn indexes(&self) -> &Indexes
        ensures indexes { AreIndexesOf self.now.collection self.now.features result.now }
        ensures listed { AreFeaturesOf self.now.collection self.now.features }
    {
        &self.indexes
    }

    /// How many features have their values at the revision. No memory is taken.
    pub fn count_at(&self, revision: u64) -> u64
        ensures { result ≡ length (rows_at revision self.now.features) }
    {
        self.periods.count_at(revision)
    }

    /// Whether none of the features has its values at the revision, or all have. No memory is taken.
    pub fn shown_at(&self, revision: u64) -> Shown
        ensures { AreShown result revision self.now.features }
    {
        let count = self.count_at(revision);
        if count == 0 {
            Shown::Nothing
        } else if count == self.features.len() as u64 {
            Shown::Everything
        } else {
            Shown::Part
        }
    }

    /// How many features have a value in the range. No memory is taken.
    pub fn count_in(&self, range: &Range) -> u64
        ensures { result ≡ length (filter (λ x. lies_in x range.now) self.now.features) }
    {
        ranges_count_features();
        self.indexes.range_count(range)
    }

    /// How many of the features that have their values at the revision have a value in the range, by a look at the period of each in the
    /// range. No memory is taken.
    pub fn count_in_at(&self, range: &Range, revision: u64) -> u64
        ensures { result ≡ length (filter (λ x. lies_in x range.now) (rows_at revision self.now.features)) }
    {
        match self.indexes.range(range) {
            None => 0,
            Some(found) => count_shown(self.features(), found.by_rank(), revision),
        }
    }

    /// How many features are near the box. No memory is taken.
    pub fn count_near(&self, property: usize, bounds: Bounds) -> u64
        ensures { result ≡ length (filter (is_near property (block_of bounds)) self.now.features) }
    {
        grids_count_features();
        self.indexes.near_count(property, bounds)
    }

    /// How many of the features that have their values at the revision are near the box, by a look at the period of each near it. No
    /// memory is taken.
    pub fn count_near_at(&self, property: usize, bounds: Bounds, revision: u64) -> u64
        ensures { result ≡ length (filter (is_near property (block_of bounds)) (rows_at revision self.now.features)) }
    {
        match self.indexes.grid(property) {
            None => 0,
            Some(grid) => {
                let shown = ShownAt {
                    features: self.features(),
                    revision,
                };
                grid.count_passing(bounds, &shown)
            }
        }
    }
}
