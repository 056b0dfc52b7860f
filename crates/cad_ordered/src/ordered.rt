//! An index of the values of one property in their order.

ghost use Rattle.std.specs.Prelude.{◌≡◌, ◌↔◌, ◌≤◌, IfOk, IsTrue, length};
ghost use Rattle.std.specs.List.{All};
ghost use Rattle.cad_feature.specs.Limits.{limit_of};
ghost use Rattle.cad_feature.specs.Values.{IsOfKind};
ghost use Rattle.cad_schema.specs.declared.property.PropertyKind.TheVariants as kinds;
ghost use Rattle.cad_ordered.specs.Edges.{IsEdgeOf};
ghost use Rattle.cad_ordered.specs.Ranged.{column, value_at, range_positions};
ghost use Rattle.cad_ordered.specs.Columns.{data_of, kind_of, ordered_column, IsOrderOf, AreOrdered};

use crate::key::ordered_keys;
use crate::keys::Keys;
use crate::text_key::TextKey;
use crate::texts::Texts;
use cad_day::Day;
use cad_feature::{Edge, Feature};
use cad_positions::{Found, Ranking};
use cad_schema::PropertyKind;
use std::alloc::{AllocError, Global};
use std::marker::Model;

/// The positions of one property's values in their order. Contracts see the kind, and the values by position.
#[derive(Drop)]
pub struct Ordered {
    keys: Keys,
    ranking: Ranking,
}

impl Model for Ordered {
    ghost use Rattle.cad_positions.specs.Parts.{ranks_in};
    ghost use Rattle.cad_ordered.specs.Columns.{Column, data_of, kind_of, by_rank};
    ghost use Rattle.cad_ordered.specs.Indexed.{IsIndexed};

    ghost Value = { Column };

    ghost view = { λ o. record { kind = kind_of o.keys; values = by_rank (data_of o.keys) (ranks_in o.ranking) } };

    ghost invariant = { λ o. IsIndexed o.keys o.ranking };
}

fn made(
    alloc: Global,
    features: &[Feature],
    place: usize,
    keys: Keys,
    places: Vec<u32>,
) -> Result<Ordered, AllocError>
    requires small { length features.now ≤ 4294967295 }
    requires ordered { IsOrderOf (data_of keys) places.items (column place features.now) }
    requires none { AreOrdered (column place features.now) }
    ensures { IfOk result (λ o. o ≡ record { kind = kind_of keys; values = column place features.now }) }
{
    let ranking = Ranking::new(alloc, places, features.len())?;
    Ok(Ordered { keys, ranking })
}

impl Ordered {
    // The index of the texts of one property.
    fn of_texts(alloc: Global, features: &[Feature], place: usize) -> Result<Ordered, AllocError>
        requires small { length features.now ≤ 4294967295 }
        requires alike { All (λ x. IsOfKind kinds.Text (value_at place x)) features.now }
        ensures { IfOk result (λ o. o ≡ record { kind = kinds.Text; values = column place features.now }) }
    {
        let (keys, places) = ordered_keys::<TextKey>(alloc, features, place)?;
        let texts = Texts::of(alloc, keys)?;
        let ordered = made(alloc, features, place, Keys::Texts(texts), places)?;
        Ok(ordered)
    }

    // The index of the whole numbers of one property.
    fn of_wholes(alloc: Global, features: &[Feature], place: usize) -> Result<Ordered, AllocError>
        requires small { length features.now ≤ 4294967295 }
        requires alike { All (λ x. IsOfKind kinds.Whole (value_at place x)) features.now }
        ensures { IfOk result (λ o. o ≡ record { kind = kinds.Whole; values = column place features.now }) }
    {
        let (keys, places) = ordered_keys::<i64>(alloc, features, place)?;
        let ordered = made(alloc, features, place, Keys::Wholes(keys), places)?;
        Ok(ordered)
    }

    // The index of the days of one property.
    fn of_days(alloc: Global, features: &[Feature], place: usize) -> Result<Ordered, AllocError>
        requires small { length features.now ≤ 4294967295 }
        requires alike { All (λ x. IsOfKind kinds.Day (value_at place x)) features.now }
        ensures { IfOk result (λ o. o ≡ record { kind = kinds.Day; values = column place features.now }) }
    {
        let (keys, places) = ordered_keys::<Day>(alloc, features, place)?;
        let ordered = made(alloc, features, place, Keys::Days(keys), places)?;
        Ok(ordered)
    }

    /// The index of the features' property at that place, which has that kind; `None` if the kind has no order. An error means
    /// out of memory.
    pub fn build(
        alloc: Global,
        features: &[Feature],
        place: usize,
        kind: PropertyKind,
    ) -> Result<Option<Ordered>, AllocError>
        requires small { length features.now ≤ 4294967295 }
        requires alike { All (λ x. IsOfKind kind (value_at place x)) features.now }
        ensures { IfOk result (λ o. o ≡ ordered_column kind (column place features.now)) }
    {
        match kind {
            PropertyKind::Text => {
                let ordered = Ordered::of_texts(alloc, features, place)?;
                Ok(Some(ordered))
            }
            PropertyKind::Whole => {
                let ordered = Ordered::of_wholes(alloc, features, place)?;
                Ok(Some(ordered))
            }
            PropertyKind::Day => {
                let ordered = Ordered::of_days(alloc, features, place)?;
                Ok(Some(ordered))
            }
            PropertyKind::Flag => Ok(None),
            PropertyKind::Span => Ok(None),
            PropertyKind::Spot => Ok(None),
            PropertyKind::Area => Ok(None),
        }
    }

    /// Whether ranges with this end may be asked for: it is free, or a value of the kind.
    pub fn takes(&self, edge: &Edge) -> bool
        ensures { IsTrue result ↔ IsEdgeOf self.now.kind edge.now }
    {
        self.keys.takes(edge)
    }

    /// The positions whose value lies from one end to the other, by the ranks between which they lie. No memory is taken.
    pub fn range(&self, low: &Edge, high: &Edge) -> Found<'_>
        requires low { IsEdgeOf self.now.kind low.now }
        requires high { IsEdgeOf self.now.kind high.now }
        ensures { result ≡ range_positions self.now.values (limit_of low.now) (limit_of high.now) }
    {
        let count = self.ranking.ranked();
        let from = self.keys.low_rank(count, low);
        let upto = self.keys.high_rank(count, high);
        self.ranking.found(from, upto.max(from))
    }

    /// How many positions have a value that lies from one end to the other. No memory is taken.
    pub fn count(&self, low: &Edge, high: &Edge) -> u64
        requires low { IsEdgeOf self.now.kind low.now }
        requires high { IsEdgeOf self.now.kind high.now }
        ensures { result ≡ length (range_positions self.now.values (limit_of low.now) (limit_of high.now)) }
    {
        u64::from(self.range(low, high).count())
    }
}
