//! Keeping the features of revisions.

ghost use Rattle.std.specs.Prelude.{◌≡◌, ◌<◌, List, [], length, IfOk};
ghost use Rattle.cad_versions.specs.declared.command.Command.{Command as CommandOf};
ghost use Rattle.cad_versions.specs.AsOf.{as_of};
ghost use Rattle.cad_versions.specs.Refusals.{AreAccepted};
ghost use Rattle.cad_feature.specs.Flatten.{features_in};
ghost use Rattle.lru.specs.LruCache.{lru_cache};
ghost use Rattle.cad_history.specs.Histories.{AreAllRowsOf};
ghost use Rattle.cad_server.specs.inner.Counts.{AreCountsOf};

use crate::snapshot_cache::SnapshotCache;
use crate::totals::Totals;
use cad_commands::Chain;
use cad_history::laws::accepted_are_few;
use cad_history::{Histories, Snapshot};
use cad_schema::Collection;
use cad_stream::VersionCounts;
use lru::LruCache;
use std::alloc::{AllocError, Global};
use std::num::NonZeroUsize;
use std::rc::Rc;

/// The most revisions of which a snapshot is kept.
const MOST_SNAPSHOTS: usize = 4;

impl SnapshotCache {
    ghost use Rattle.std.specs.Prelude.{◌≡◌, ◌≤◌, [], IfOk, IfSome, List, length, option_map};
    ghost use Rattle.std.specs.Option.{option_copied};
    ghost use Rattle.std.specs.Rc.{rc_value};
    ghost use Rattle.cad_versions.specs.declared.command.Command.{Command as CommandOf};
    ghost use Rattle.cad_versions.specs.AsOf.{as_of};
    ghost use Rattle.cad_versions.specs.Refusals.{AreAccepted};
    ghost use Rattle.cad_server.specs.Keeping.{KeepsOf, KeepsOnly, KnowsChain, StaysCached, StaysChained, StaysWith, cached_at, rows_in};
    ghost use Rattle.cad_stream.specs.Summaries.{AreSoMany, highest_object};

    /// Nothing is kept yet. An error means out of memory.
    pub(crate) fn new(alloc: Global) -> Result<SnapshotCache, AllocError>
        ensures { IfOk result (λ kept. (commands : List CommandOf) → KeepsOf commands kept) }
    {
        let snapshots = cache(alloc, MOST_SNAPSHOTS)?;
        Ok(SnapshotCache {
            histories: None,
            totals: Totals::unknown(),
            snapshots,
        })
    }

    /// The features at every revision, if they are kept.
    pub(crate) fn histories(&self) -> Option<&Rc<Histories>>
        ensures { option_map rc_value (option_copied result) ≡ rows_in self.now }
    {
        self.histories.as_ref()
    }

    /// The snapshot of the revision, if it is kept.
    pub(crate) fn at(&self, revision: u64) -> Option<&Snapshot>
        ensures { option_copied result ≡ cached_at revision self.now }
    {
        self.snapshots.peek(&revision)
    }

    /// Notes that the revision was asked for. The snapshot that was least recently asked for is dropped first.
    pub(crate) fn touch(&mut self, revision: u64)
        ensures { StaysCached self.old self.new }
    {
        let _ = self.snapshots.promote(&revision);
    }

    /// Keeps these histories, or none, and these totals in the place of those before them. No snapshot is kept, so nothing holds the old
    /// histories.
    pub(crate) fn replace(&mut self, histories: Option<Rc<Histories>>, totals: Totals)
        ensures { KeepsOnly (option_map rc_value histories) totals self.new }
    {
        self.snapshots.clear();
        self.histories = histories;
        self.totals = totals;
    }

    /// Keeps the chain of the commands.
    pub(crate) fn keep_chain(&mut self, chain: Chain)
        ensures { StaysChained chain self.old self.new }
    {
        self.totals.chain = Some(chain);
    }

    /// What is known of the commands together.
    pub(crate) fn totals(&self) -> &Totals
        ensures { result.now ≡ self.now.totals }
    {
        &self.totals
    }

    /// Keeps a snapshot of its revision, if there is memory.
    pub(crate) fn add(&mut self, snapshot: Snapshot)
        ensures { StaysWith snapshot self.old self.new }
    {
        let revision = snapshot.revision();
        drop(self.snapshots.put(revision, snapshot));
    }

    /// The versions of each class at the newest revision, if the histories are kept.
    pub(crate) fn counts(&self) -> Option<VersionCounts>
        ensures { IfSome result (λ counts. (commands : List CommandOf) → AreAccepted [] commands → KeepsOf commands self.now → AreSoMany (as_of (length commands) commands) counts) }
    {
        let histories = self.histories.as_ref()?;
        Some(counts_of(histories))
    }

    /// The highest number of an object, if it is known.
    pub(crate) fn highest_object(&self) -> Option<u64>
        ensures { (commands : List CommandOf) → KeepsOf commands self.now → IfSome result (λ highest. highest ≡ highest_object (as_of (length commands) commands)) }
    {
        self.totals.highest_object
    }

    /// The chain of the commands, if it is kept.
    pub(crate) fn chain(&self) -> Option<Chain>
        ensures { (commands : List CommandOf) → KeepsOf commands self.now → KnowsChain commands result }
    {
        self.totals.chain
    }

    /// The oldest revision whose features are kept.
    pub(crate) fn oldest(&self) -> Option<u64>
        ensures { (commands : List CommandOf) → KeepsOf commands self.now → IfSome result (λ oldest. oldest ≤ length commands) }
    {
        self.histories.as_ref()?;
        Some(0)
    }
}

/// How many features there are of each collection at the newest revision.
fn counts_of(histories: &Histories) -> VersionCounts
    ensures { (commands : List CommandOf) → AreAccepted [] commands → AreAllRowsOf commands histories.now → AreCountsOf (as_of (length commands) commands) result }
{
    VersionCounts {
        of_each: Collection::ALL.map(|collection| count_of(histories, collection)),
    }
}

/// How many features there are of the collection at the newest revision.
fn count_of(histories: &Histories, collection: Collection) -> u64
    ensures { (commands : List CommandOf) → AreAccepted [] commands → AreAllRowsOf commands histories.now
        → result ≡ length (features_in (as_of (length commands) commands) collection) }
{
    // Accepted commands are fewer than numbers of revisions.
    accepted_are_few();
    histories.of(collection).newest().count()
}

/// A cache of at most this many snapshots, for which no memory is taken yet.
fn cache(alloc: Global, most: usize) -> Result<LruCache<u64, Snapshot>, AllocError>
    requires { 0 < most }
    ensures { IfOk result (λ cache. cache ≡ lru_cache [] most) }
{
    let Some(most) = NonZeroUsize::new(most) else {
        unreachable!()
    };
    LruCache::sparse(alloc, most)
}
