//! A segment of the features of a collection: those of the objects between two numbers, with indexes, and recent changes to them.

ghost use Rattle.std.specs.Prelude.{◌≡◌, IfOk};
ghost use Rattle.cad_feature.specs.Features.{AreFeaturesOf};
ghost use Rattle.cad_layer.specs.inner.Recent.{AreRecent};
ghost use Rattle.cad_layer.specs.Walks.{all_in};

use crate::changed::changed;
use crate::counting::count_passing;
use crate::criterion::Criterion;
use crate::indexed::MOST_FEATURES;
use crate::merging::push_all;
use crate::recent::Recent;
use crate::{Change, Indexed, Walk};
use cad_extents::Extents;
use cad_feature::Feature;
use cad_schema::{Collection, schema};
use cad_versions::ObjectId;
use std::alloc::{AllocError, Global};
use std::marker::Model;
use std::rc::Rc;

/// The features of a collection at a revision that are of the objects from a number on, up to where the next segment starts: those that
/// are in indexes, which other revisions share, and recent changes to them.
///
/// Contracts see the number, the collection and the features, with the changes merged.
#[derive(Drop)]
pub struct Segment {
    start: u32,
    indexed: Rc<Indexed>,
    recent: Rc<Recent>,
}

/// The indexed features that are shared.
fn shared(indexed: &Rc<Indexed>) -> &Indexed
    ensures { result.now ≡ indexed.now.value }
{
    indexed
}

/// The recent changes that are shared.
fn recent_of(recent: &Rc<Recent>) -> &Recent
    ensures { result.now ≡ recent.now.value }
{
    recent
}

impl Model for Segment {
    ghost use Rattle.cad_layer.specs.inner.Recent.{AreRecent};
    ghost use Rattle.cad_layer.specs.Segments.{SegmentFeatures};
    ghost use Rattle.cad_layer.specs.Walks.{all_in};

    ghost Value = { SegmentFeatures };

    ghost view = { λ s. record { start = s.start; collection = s.indexed.value.collection; features = all_in s.indexed.value.features s.recent.value.changes.items } };

    ghost invariant = { λ s. AreRecent s.indexed.value s.recent.value };
}

impl Segment {
    ghost use Rattle.std.specs.Prelude.{◌≡◌, ◌≤◌, IfOk, length};
    ghost use Rattle.std.specs.List.{AllByRecursion};
    ghost use Rattle.cad_extents.specs.Extents.{IsWithin};
    ghost use Rattle.std.specs.Option.{option_copied};
    ghost use Rattle.cad_feature.specs.Features.{AreFeaturesOf};
    ghost use Rattle.cad_lookup.specs.Ways.{how_many};
    ghost use Rattle.cad_layer.specs.Identifiers.{identifier, IsTheOne};
    ghost use Rattle.cad_layer.specs.inner.Recent.{AreRecent};
    ghost use Rattle.cad_layer.specs.Walks.{all_in, IsInOrder};

    /// These features with the changes to them.
    fn of(
        alloc: Global,
        start: u32,
        indexed: Rc<Indexed>,
        recent: Recent,
    ) -> Result<Segment, AllocError>
        requires { AreRecent indexed.value recent }
        ensures { IfOk result (λ segment. segment ≡ record { start = start; collection = indexed.value.collection; features = all_in indexed.value.features recent.changes.items }) }
    {
        let recent = Rc::new(alloc, recent)?;
        Ok(Segment {
            start,
            indexed,
            recent,
        })
    }

    /// These features with these extents, without changes.
    fn without_changes(
        alloc: Global,
        start: u32,
        indexed: Indexed,
        extents: Extents,
    ) -> Result<Segment, AllocError>
        requires listed { AreFeaturesOf indexed.collection indexed.features }
        requires within { AllByRecursion (IsWithin extents) indexed.features }
        ensures { IfOk result (λ segment. segment ≡ record { start = start; collection = indexed.collection; features = indexed.features }) }
    {
        let indexed = Rc::new(alloc, indexed)?;
        let recent = Recent::none(alloc, extents);
        Segment::of(alloc, start, indexed, recent)
    }

    /// These features with the changes to them, which get indexes too.
    fn indexed_with(
        alloc: Global,
        start: u32,
        indexed: &Indexed,
        recent: Recent,
    ) -> Result<Segment, AllocError>
        requires { AreRecent indexed.now recent }
        ensures { IfOk result (λ segment. segment ≡ record { start = start; collection = indexed.now.collection; features = all_in indexed.now.features recent.changes.items }) }
    {
        let indexed = indexed.with(alloc, &recent.changes)?;
        Segment::without_changes(alloc, start, indexed, recent.extents)
    }

    /// These features of the collection, without changes. An error means out of memory.
    pub(crate) fn build(
        alloc: Global,
        features: Vec<Feature>,
        collection: Collection,
        start: u32,
    ) -> Result<Segment, AllocError>
        requires small { length features.items ≤ 4294967295 }
        requires listed { AreFeaturesOf collection features.items }
        ensures { IfOk result (λ segment. segment ≡ record { start = start; collection = collection; features = features.items }) }
    {
        let extents = Extents::of(alloc, &features, schema(collection).len())?;
        let indexed = Indexed::build(alloc, features, collection)?;
        Segment::without_changes(alloc, start, indexed, extents)
    }

    /// The number from which on it has objects.
    pub(crate) fn start(&self) -> u32
        ensures { result ≡ self.now.start }
    {
        self.start
    }

    /// The features that are in indexes, and the recent changes to them by object and number.
    pub fn parts(&self) -> (&Indexed, &[Change])
        ensures collection { result.0.now.collection ≡ self.now.collection }
        ensures all { all_in result.0.now.features result.1.now ≡ self.now.features }
        ensures order { IsInOrder result.0.now.features result.1.now }
    {
        (shared(&self.indexed), &recent_of(&self.recent).changes)
    }

    /// The same features with these merged into them. Without features to merge, all is shared. If there are then at most `most_recent`
    /// recent changes, the indexes are shared; otherwise the changes get indexes too. An error means out of memory.
    pub(crate) fn with(
        &self,
        alloc: Global,
        touched: Vec<Feature>,
        most_recent: usize,
    ) -> Result<Segment, AllocError>
        requires { AreFeaturesOf self.now.collection touched.items }
        ensures { IfOk result (λ segment. segment ≡ record { start = self.now.start; collection = self.now.collection; features = all_in self.now.features touched.items }) }
    {
        if touched.is_empty() {
            return self.copy();
        }
        let indexed = shared(&self.indexed);
        let recent = recent_of(&self.recent).with(alloc, indexed, touched)?;
        if recent.changes.len() > most_recent {
            return Segment::indexed_with(alloc, self.start, indexed, recent);
        }
        let indexed = self.indexed.clone()?;
        Segment::of(alloc, self.start, indexed, recent)
    }

    /// The same features: all is shared. An error means that too many share it.
    pub(crate) fn copy(&self) -> Result<Segment, AllocError>
        ensures { IfOk result (λ segment. segment ≡ self.now) }
    {
        let indexed = self.indexed.clone()?;
        let recent = self.recent.clone()?;
        Ok(Segment {
            start: self.start,
            indexed,
            recent,
        })
    }

    /// How many changes to its base there are.
    pub(crate) fn change_count(&self) -> usize {
        let recent = recent_of(&self.recent).changes.len();
        shared(&self.indexed).older_count().saturating_add(recent)
    }

    /// How many features its base has.
    pub(crate) fn base_count(&self) -> usize {
        shared(&self.indexed).base_count()
    }

    /// The same features over a base of their own, if a base can hold them. An error means out of memory.
    pub(crate) fn rebased(&self, alloc: Global) -> Result<Segment, AllocError>
        ensures { IfOk result (λ segment. segment ≡ self.now) }
    {
        let mut features = Vec::with_capacity(alloc, self.base_count())?;
        push_all(alloc, &mut features, self.walk())?;
        if features.len() > MOST_FEATURES {
            return self.copy();
        }
        let collection = shared(&self.indexed).collection();
        Segment::build(alloc, features, collection, self.start)
    }

    /// The feature that is the version of that object with that number. No memory is taken.
    pub(crate) fn feature(&self, object: ObjectId, number: u32) -> Option<&Feature>
        ensures { IsTheOne (identifier object number) self.now.features (option_copied result) }
    {
        match changed(&recent_of(&self.recent).changes, object, number) {
            Some(feature) => Some(feature),
            None => shared(&self.indexed).feature(object, number),
        }
    }

    /// A walk through the features, by object and number.
    pub(crate) fn walk(&self) -> Walk<'_>
        ensures { result ≡ self.now.features }
    {
        let (base, older) = shared(&self.indexed).lists();
        Walk::new(base, older, &recent_of(&self.recent).changes)
    }

    /// How many features there are.
    pub(crate) fn count(&self) -> u64
        ensures { result ≡ length self.now.features }
    {
        let recent = recent_of(&self.recent);
        let changes: &[Change] = &recent.changes;
        let replaced: &[Change] = &recent.replaced;
        (shared(&self.indexed).count() + changes.len() - replaced.len()) as u64
    }

    /// Between which values the features lie.
    pub fn extents(&self) -> &Extents
        ensures { AllByRecursion (IsWithin result.now) self.now.features }
    {
        &recent_of(&self.recent).extents
    }

    /// How many features meet the criterion: 0 if none may, else counted by indexes and a look at each recent change. No memory is
    /// taken.
    pub(crate) fn count_meeting<T: Criterion>(&self, criterion: &T) -> u64
        ensures { result ≡ how_many (T.passes criterion.now) self.now.features }
    {
        if !criterion.may_be_met_in(self.extents()) {
            return 0;
        }
        let recent = recent_of(&self.recent);
        shared(&self.indexed).count_meeting(criterion) + count_passing(&recent.changes, criterion)
            - count_passing(&recent.replaced, criterion)
    }
}
