//! The indexes of a collection's features.

ghost use Rattle.std.specs.Prelude.{◌≡◌, ◌≤◌, IfOk, length};
ghost use Rattle.std.specs.List.{All};
ghost use Rattle.std.specs.Option.{option_copied};
ghost use Rattle.cad_feature.specs.Features.{AreFeaturesOf};
ghost use Rattle.cad_feature.specs.Values.{IsOfKind};
ghost use Rattle.cad_ordered.specs.Ranged.{value_at};
ghost use Rattle.cad_index.specs.Indexed.{index_of, indexes_of, index_at, ordered_in, grid_in};

use crate::Index;
use cad_feature::{Feature, Range};
use cad_grid::Grid;
use cad_ordered::Ordered;
use cad_positions::Found;
use cad_schema::{Collection, PropertyKind, schema};
use cad_shape::Bounds;
use std::alloc::{AllocError, Global};

/// The indexes of a collection's features, one for each property in the order of the schema.
#[derive(Drop)]
pub struct Indexes {
    count: usize,
    properties: Vec<Index>,
}

// The index of the property at that place, which has that kind.
fn index(
    alloc: Global,
    features: &[Feature],
    place: usize,
    kind: PropertyKind,
) -> Result<Index, AllocError>
    requires small { length features.now ≤ 4294967295 }
    requires alike { All (λ x. IsOfKind kind (value_at place x)) features.now }
    ensures { IfOk result (λ index. index ≡ index_of kind place features.now) }
{
    match kind {
        PropertyKind::Spot | PropertyKind::Area => {
            let grid = Grid::build(alloc, features, place)?;
            Ok(Index::Grid(grid))
        }
        _ => {
            let ordered = Ordered::build(alloc, features, place, kind)?;
            match ordered {
                None => Ok(Index::Unindexed),
                Some(ordered) => Ok(Index::Ordered(ordered)),
            }
        }
    }
}

impl Indexes {
    ghost use Rattle.std.specs.Prelude.{◌≡◌, IfOk, List, length};
    ghost use Rattle.cad_schema.specs.declared.collection.Collection.{Collection as CollectionOf};
    ghost use Rattle.cad_feature.specs.Features.{Item, AreFeaturesOf};
    ghost use Rattle.cad_feature.specs.Limits.{limit_of};
    ghost use Rattle.cad_grid.specs.Blocks.{block_of};
    ghost use Rattle.cad_grid.specs.Grids.{blocks_at, near_positions};
    ghost use Rattle.cad_ordered.specs.Ranged.{column, range_positions};
    ghost use Rattle.cad_index.specs.Indexed.{AreIndexesOf, positions_if_any};

    /// The indexes of these features of the collection. An error means out of memory.
    pub fn build(
        alloc: Global,
        features: &[Feature],
        collection: Collection,
    ) -> Result<Indexes, AllocError>
        requires small { length features.now ≤ 4294967295 }
        requires listed { AreFeaturesOf collection features.now }
        ensures properties { IfOk result (λ indexes. indexes.properties.items ≡ indexes_of collection features.now) }
        ensures counted { IfOk result (λ indexes. indexes.count ≡ length features.now) }
    {
        let mut properties = Vec::new(alloc);
        for (place, property) in schema(collection).iter().enumerate() {
            let index = index(alloc, features, place, property.kind)?;
            properties.push(index)?;
        }
        Ok(Indexes {
            count: features.len(),
            properties,
        })
    }

    /// The ordered index of the property at that place, if it has one.
    pub fn ordered(&self, place: usize) -> Option<&Ordered>
        ensures { option_copied result ≡ ordered_in (index_at self.now.properties.items place) }
    {
        match self.properties.get(place) {
            Some(Index::Ordered(ordered)) => Some(ordered),
            _ => None,
        }
    }

    /// The grid of the property at that place, if it has one.
    pub fn grid(&self, place: usize) -> Option<&Grid>
        ensures { option_copied result ≡ grid_in (index_at self.now.properties.items place) }
    {
        match self.properties.get(place) {
            Some(Index::Grid(grid)) => Some(grid),
            _ => None,
        }
    }

    /// The positions whose value lies in the range; `None` if the property has no ordered index, or an end is not a value of its
    /// kind, since then no value lies in it. No memory is taken.
    pub fn range(&self, range: &Range) -> Option<Found<'_>>
        ensures { (collection : CollectionOf) (xs : List Item) → AreFeaturesOf collection xs → AreIndexesOf collection xs self.now
            → positions_if_any result ≡ range_positions (column range.now.property xs) (limit_of range.now.low) (limit_of range.now.high) }
    {
        match self.ordered(range.property) {
            None => None,
            Some(ordered) => {
                if ordered.takes(&range.low) && ordered.takes(&range.high) {
                    Some(ordered.range(&range.low, &range.high))
                } else {
                    None
                }
            }
        }
    }

    /// How many positions have a value in the range. No memory is taken.
    pub(crate) fn range_count(&self, range: &Range) -> u64
        ensures { (collection : CollectionOf) (xs : List Item) → AreFeaturesOf collection xs → AreIndexesOf collection xs self.now
            → result ≡ length (range_positions (column range.now.property xs) (limit_of range.now.low) (limit_of range.now.high)) }
    {
        match self.range(range) {
            None => 0,
            Some(found) => u64::from(found.count()),
        }
    }

    /// The positions near the box, in ascending order; none if the property has no grid, since then nothing is near. An error means
    /// out of memory.
    pub fn near(
        &self,
        alloc: Global,
        property: usize,
        bounds: Bounds,
    ) -> Result<Vec<u32>, AllocError>
        ensures { IfOk result (λ found. (collection : CollectionOf) (xs : List Item) → AreFeaturesOf collection xs → AreIndexesOf collection xs self.now
            → found.items ≡ near_positions (blocks_at property xs) (block_of bounds)) }
    {
        match self.grid(property) {
            None => Ok(Vec::new(alloc)),
            Some(grid) => {
                let found = grid.near(alloc, bounds)?;
                Ok(found)
            }
        }
    }

    /// How many positions are near the box. No memory is taken.
    pub(crate) fn near_count(&self, property: usize, bounds: Bounds) -> u64
        ensures { (collection : CollectionOf) (xs : List Item) → AreFeaturesOf collection xs → AreIndexesOf collection xs self.now
            → result ≡ length (near_positions (blocks_at property xs) (block_of bounds)) }
    {
        match self.grid(property) {
            None => 0,
            Some(grid) => grid.count(bounds),
        }
    }
}
