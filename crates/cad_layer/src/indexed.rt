//! Features that are in indexes: those of a base, and the older changes to it.

ghost use Rattle.std.specs.Prelude.{◌≡◌, IfOk};
ghost use Rattle.cad_feature.specs.Features.{AreFeaturesOf};

use crate::Change;
use crate::counting::count_indexed;
use crate::criterion::Criterion;
use crate::finding::found;
use crate::merging::merge;
use crate::replacing::replaced_by;
use cad_feature::Feature;
use cad_index::Base;
use cad_schema::Collection;
use cad_versions::ObjectId;
use std::alloc::{AllocError, Global};
use std::marker::Model;
use std::rc::Rc;

/// The most features that a base holds: their positions are numbers of 32 bits.
pub(crate) const MOST_FEATURES: usize = 4_294_967_295;

/// Features of a collection with indexes: a base, which others share, older changes to it, and the features of the base that these
/// replace. Each of the three has its own indexes: a count adds those of the base and of the changes, and subtracts that of the replaced.
///
/// Contracts see the collection and the features, with the older changes merged.
#[derive(Drop)]
pub struct Indexed {
    base: Rc<Base>,
    older: Base,
    replaced: Base,
}

/// The base that is shared.
fn shared(base: &Rc<Base>) -> &Base
    ensures { result.now ≡ base.now.value }
{
    base
}

/// These features with their indexes, if a base can hold them. An error means out of memory.
fn small_base(
    alloc: Global,
    features: Vec<Feature>,
    collection: Collection,
) -> Result<Base, AllocError>
    requires { AreFeaturesOf collection features.items }
    ensures { IfOk result (λ base. base ≡ record { collection = collection; features = features.items }) }
{
    if features.len() > MOST_FEATURES {
        return Err(AllocError);
    }
    Base::build(alloc, features, collection)
}

impl Model for Indexed {
    ghost use Rattle.std.specs.Prelude.{◌≡◌};
    ghost use Rattle.cad_feature.specs.Features.{AreFeaturesOf, by_identifier};
    ghost use Rattle.cad_index.specs.Layers.{LayerFeatures};
    ghost use Rattle.cad_layer.specs.inner.Replaced.{replaced_in};
    ghost use Rattle.cad_layer.specs.Walks.{all_in};

    ghost Value = { LayerFeatures };

    ghost view = { λ f. record { collection = f.base.value.collection; features = all_in f.base.value.features f.older.features } };

    ghost invariant = { λ f. AreFeaturesOf f.base.value.collection f.base.value.features × AreFeaturesOf f.base.value.collection f.older.features × AreFeaturesOf f.base.value.collection f.replaced.features × (f.replaced.features ≡ replaced_in by_identifier f.base.value.features f.older.features) };
}

impl Indexed {
    ghost use Rattle.std.specs.Prelude.{◌≡◌, ◌≤◌, IfOk, length};
    ghost use Rattle.std.specs.Option.{option_copied};
    ghost use Rattle.std.specs.List.Sorted.{IsStrictlySortedBy};
    ghost use Rattle.cad_feature.specs.Features.{AreFeaturesOf, by_identifier};
    ghost use Rattle.cad_lookup.specs.Ways.{how_many};
    ghost use Rattle.cad_layer.specs.Identifiers.{identifier, IsTheOne};
    ghost use Rattle.cad_layer.specs.Walks.{all_in, IsInOrder};

    /// These features of the collection, without changes. An error means out of memory.
    pub(crate) fn build(
        alloc: Global,
        features: Vec<Feature>,
        collection: Collection,
    ) -> Result<Indexed, AllocError>
        requires small { length features.items ≤ 4294967295 }
        requires listed { AreFeaturesOf collection features.items }
        ensures { IfOk result (λ indexed. indexed ≡ record { collection = collection; features = features.items }) }
    {
        let base = Base::build(alloc, features, collection)?;
        let older = Base::build(alloc, Vec::new(alloc), collection)?;
        let replaced = Base::build(alloc, Vec::new(alloc), collection)?;
        let base = Rc::new(alloc, base)?;
        Ok(Indexed {
            base,
            older,
            replaced,
        })
    }

    /// The base, and the older changes to it.
    pub fn parts(&self) -> (&Base, &Base)
        ensures collection { result.0.now.collection ≡ self.now.collection }
        ensures all { all_in result.0.now.features result.1.now.features ≡ self.now.features }
        ensures order { IsInOrder result.0.now.features result.1.now.features }
    {
        (shared(&self.base), &self.older)
    }

    /// The collection whose features they are.
    pub(crate) fn collection(&self) -> Collection
        ensures collection { result ≡ self.now.collection }
        ensures listed { AreFeaturesOf result self.now.features }
    {
        shared(&self.base).collection()
    }

    /// The same features with these changes merged into them, over the same base. The changes get indexes together with the older ones.
    /// An error means out of memory.
    pub(crate) fn with(&self, alloc: Global, changes: &[Change]) -> Result<Indexed, AllocError>
        requires { AreFeaturesOf self.now.collection changes.now }
        ensures { IfOk result (λ indexed. indexed ≡ record { collection = self.now.collection; features = all_in self.now.features changes.now }) }
    {
        let base = shared(&self.base);
        let collection = base.collection();
        let older = merge(alloc, self.older.features(), changes)?;
        let older = small_base(alloc, older, collection)?;
        let more = replaced_by(alloc, base, changes)?;
        let replaced = merge(alloc, self.replaced.features(), &more)?;
        let replaced = small_base(alloc, replaced, collection)?;
        let base = self.base.clone()?;
        Ok(Indexed {
            base,
            older,
            replaced,
        })
    }

    /// How many changes to the base there are.
    pub(crate) fn older_count(&self) -> usize {
        self.older.features().len()
    }

    /// How many features the base has.
    pub(crate) fn base_count(&self) -> usize {
        shared(&self.base).features().len()
    }

    /// The features of the base, and the older changes to it.
    pub(crate) fn lists(&self) -> (&[Feature], &[Feature])
        ensures all { all_in result.0.now result.1.now ≡ self.now.features }
        ensures order { IsInOrder result.0.now result.1.now }
    {
        (shared(&self.base).features(), self.older.features())
    }

    /// The feature that is the version of that object with that number. No memory is taken.
    pub(crate) fn feature(&self, object: ObjectId, number: u32) -> Option<&Feature>
        ensures one { IsTheOne (identifier object number) self.now.features (option_copied result) }
        ensures order { IsStrictlySortedBy by_identifier self.now.features }
    {
        let (base, older) = self.lists();
        match found(older, object, number) {
            Some(feature) => Some(feature),
            None => found(base, object, number),
        }
    }

    /// How many features there are.
    pub(crate) fn count(&self) -> usize
        ensures count { result ≡ length self.now.features }
        ensures few { result ≤ 8589934590 }
    {
        let base = shared(&self.base).features();
        let older = self.older.features();
        let replaced = self.replaced.features();
        base.len() + older.len() - replaced.len()
    }

    /// How many features meet the criterion, only by indexes. No memory is taken.
    pub(crate) fn count_meeting<T: Criterion>(&self, criterion: &T) -> u64
        ensures passing { result ≡ how_many (T.passes criterion.now) self.now.features }
        ensures few { result ≤ 8589934590 }
    {
        count_indexed(shared(&self.base), criterion) + count_indexed(&self.older, criterion)
            - count_indexed(&self.replaced, criterion)
    }
}
