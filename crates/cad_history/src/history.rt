//! The features of a collection at every revision.

ghost use Rattle.std.specs.Prelude.{◌≡◌, nat_le};
ghost use Rattle.cad_history.specs.Rows.{row_count};
ghost use Rattle.cad_history.specs.Lent.{rows_of};

use crate::ending::{all_begun, all_ended, with_rows};
use cad_feature::Feature;
use cad_layer::Layer;
use cad_schema::Collection;
use std::alloc::{AllocError, Global};
use std::marker::Model;

/// Whether a counter of 64 bits holds the number of all rows.
pub(crate) fn are_countable(newest: &Layer, earlier: &[Layer]) -> bool
    ensures { result ≡ nat_le (row_count (rows_of newest.now earlier.now)) 18446744073709551615 }
{
    let mut count = newest.count();
    let mut rest = earlier;
    while let Some((layer, behind)) = rest.split_first() {
        let Some(more) = count.checked_add(layer.count()) else {
            return false;
        };
        count = more;
        rest = behind;
    }
    true
}

/// The features of a collection at the newest revision and at all before it: the newest row of each version with its period, and earlier
/// rows. Each list of earlier rows has at most one row of a version.
///
/// Contracts see the rows.
#[derive(Drop)]
pub struct History {
    newest: Layer,
    earlier: Vec<Layer>,
    /// The last revision that changed a feature of the collection.
    last: u32,
}

impl Model for History {
    ghost use Rattle.cad_history.specs.Rows.{Rows, AreRows};

    ghost Value = { Rows };

    ghost view = { λ h. record { collection = h.newest.collection; newest = h.newest.features; earlier = h.earlier.items; last = h.last } };

    ghost invariant = { λ h. AreRows (record { collection = h.newest.collection; newest = h.newest.features; earlier = h.earlier.items; last = h.last }) };
}

impl History {
    ghost use Rattle.std.specs.Prelude.{◌≡◌, ℕ, ◌<◌, ◌≤◌, [], map, IfOk};
    ghost use Rattle.cad_feature.specs.Features.{AreFeaturesOf};
    ghost use Rattle.cad_history.specs.Rows.{AreNext, AreRows, bare, shown_at};

    /// A collection without features, before the first revision. An error means out of memory.
    pub fn new(alloc: Global, collection: Collection) -> Result<History, AllocError>
        ensures { IfOk result (λ history. history ≡ record { collection = collection; newest = []; earlier = []; last = 0 }) }
    {
        let newest = Layer::build(alloc, Vec::new(alloc), collection)?;
        Ok(History::of_layers(newest, Vec::new(alloc), 0))
    }

    /// The newest rows, and the earlier ones, that revisions up to the last one made.
    pub fn of_layers(newest: Layer, earlier: Vec<Layer>, last: u32) -> History
        requires { AreRows (record { collection = newest.collection; newest = newest.features; earlier = earlier.items; last = last }) }
        ensures { result ≡ record { collection = newest.collection; newest = newest.features; earlier = earlier.items; last = last } }
    {
        History {
            newest,
            earlier,
            last,
        }
    }

    /// The collection whose features they are.
    pub fn collection(&self) -> Collection
        ensures collection { result ≡ self.now.collection }
        ensures rows { AreRows self.now }
    {
        self.newest.collection()
    }

    /// The newest rows, which are the features at each revision from the last one on.
    pub fn newest(&self) -> &Layer
        ensures collection { result.now.collection ≡ self.now.collection }
        ensures rows { result.now.features ≡ self.now.newest }
        ensures shown { (revision : ℕ) → self.now.last ≤ revision → revision < 4294967295 → shown_at revision self.now ≡ map bare result.now.features }
    {
        &self.newest
    }

    /// The earlier rows, in lists of which each has at most one row of a version.
    pub fn earlier(&self) -> &[Layer]
        ensures { result.now ≡ self.now.earlier }
    {
        &self.earlier
    }

    /// The last revision that changed a feature of the collection.
    pub fn last(&self) -> u32
        ensures { result ≡ self.now.last }
    {
        self.last
    }

    /// The history after a revision gave the collection these features. An error means out of memory.
    pub fn next(
        &self,
        alloc: Global,
        revision: u32,
        touched: Vec<Feature>,
    ) -> Result<History, AllocError>
        requires later { self.now.last < revision }
        requires few { revision < 4294967295 }
        requires listed { AreFeaturesOf self.now.collection touched.items }
        ensures { IfOk result (AreNext revision touched.items self.now) }
    {
        let collection = self.newest.collection();
        let rows = all_ended(alloc, &self.newest, &touched, revision)?;
        let earlier = with_rows(alloc, &self.earlier, rows, collection)?;
        let begun = all_begun(alloc, touched, revision)?;
        let newest = self.newest.with(alloc, begun)?;
        if !are_countable(&newest, &earlier) {
            return Err(AllocError);
        }
        Ok(History::of_layers(newest, earlier, revision))
    }
}
