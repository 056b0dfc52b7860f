//! A ledger, and the features of its revisions.

ghost use Rattle.std.specs.Prelude.{◌≡◌};
ghost use Rattle.cad_server.specs.Servers.{is_damage as fault_names_damage};

use crate::chaining::ledger_chain;
use crate::located::Located;
use crate::snapshot_cache::SnapshotCache;
use crate::sought::{located_of, revision_of};
use crate::totals::{Totals, highest_in};
use crate::turns::versions_in_turn;
use cad_changes::histories_after;
use cad_history::{Histories, Snapshot};
use cad_request::{FeatureRequest, ParsedRequest};
use cad_stream::Summary;
use cad_versions::{Command, HistoryLedger, JournalLedger, Ledger, RegisterFault, StoredVersion};
use std::alloc::{AllocError, Global};
use std::rc::Rc;

/// How many changes the bases of a list of rows get before new ones are made, by default.
pub(crate) const MOST_CHANGES: usize = 2048;

/// Whether the fault names a damaged row.
fn is_damage(fault: &RegisterFault) -> bool
    ensures { result ≡ fault_names_damage fault.now }
{
    matches!(fault, RegisterFault::Damaged { .. })
}

/// A ledger, and the features at every revision, once they were read from it.
pub(crate) struct Records<L: Ledger> {
    ledger: L,
    kept: SnapshotCache,
    /// Whether some revision showed a damaged row when the ledger last listed all rows. Each revision is listed alone then.
    is_damaged: bool,
    /// How many changes the bases of a list of rows get before new ones are made.
    most_changes: usize,
    alloc: Global,
}

impl<L: Ledger + Drop> Drop for Records<L> {
    fn drop(self) {
        let Records {
            ledger: _,
            kept: _,
            is_damaged: _,
            most_changes: _,
            alloc: _,
        } = self;
    }
}

impl<L: Ledger> Records<L> {
    ghost use Rattle.std.specs.Prelude.{◌≡◌, List, [], ◌∷◌, ◌++◌, IfOk, IfErr, IfSome};
    ghost use Rattle.std.specs.Rc.{rc_value};
    ghost use Rattle.cad_versions.specs.declared.command.Command.{Command as CommandOf};
    ghost use Rattle.cad_versions.specs.Refusals.{AreAccepted};
    ghost use Rattle.cad_history.specs.Histories.{AreAllRowsOf};
    ghost use Rattle.cad_stream.specs.Summaries.{Summarizes};
    ghost use Rattle.cad_server.specs.Servers.{bound_in, ledger_in, AreRecordsOf, Checks, Enters};

    /// A ledger from which nothing was read yet, or the ledger back if there is no memory.
    pub(crate) fn new(alloc: Global, ledger: L, most_changes: usize) -> Result<Records<L>, L>
        ensures made { IfOk result (λ records. (commands : List CommandOf) → L.Ledger.stands_for ledger commands →
            AreRecordsOf L.Ledger records commands) }
        ensures same { IfOk result (λ records. ledger_in records ≡ ledger) }
        ensures back { IfErr result (λ back. back ≡ ledger) }
        ensures bound { IfOk result (λ records. bound_in records ≡ most_changes) }
    {
        let Ok(kept) = SnapshotCache::new(alloc) else {
            return Err(ledger);
        };
        Ok(Records {
            ledger,
            kept,
            is_damaged: false,
            most_changes,
            alloc,
        })
    }

    /// The ledger.
    pub(crate) fn release(self) -> L
        ensures { result ≡ ledger_in self }
    {
        let Records {
            ledger,
            kept: _,
            is_damaged: _,
            most_changes: _,
            alloc: _,
        } = self;
        ledger
    }

    /// Enters a command, and gives the revision after it, or refuses the command and stays as it was.
    pub(crate) fn enter(&mut self, command: Command) -> Result<u64, RegisterFault>
        ensures { Enters L.Ledger self.old command result self.new }
    {
        let next = self.next_histories(&command);
        let totals = self.kept.totals().with(self.alloc, &command);
        match self.ledger.apply(command) {
            Ok(revision) => {
                self.kept.replace(next, totals);
                Ok(revision)
            }
            Err(fault) => {
                drop(next);
                Err(fault)
            }
        }
    }

    /// What would be answered to the command, which is not entered.
    pub(crate) fn check(&mut self, command: &Command) -> Result<u64, RegisterFault>
        ensures { Checks L.Ledger self.old command.now result self.new }
    {
        self.ledger.check(command)
    }

    /// What the ledger holds, in numbers, as far as it is known without reading it.
    pub(crate) fn summary(&self) -> Summary
        ensures { Summarizes (AreRecordsOf L.Ledger) self.now result }
    {
        Summary {
            revision: self.ledger.revision(),
            versions: self.kept.counts(),
            chain: self.kept.chain(),
            highest_object: self.kept.highest_object(),
            oldest: self.kept.oldest(),
        }
    }

    /// The same histories, with new bases if these are due and there is memory for them.
    fn settled(&self, next: Histories) -> Histories
        ensures { result ≡ next }
    {
        if next.is_settled(self.most_changes) {
            return next;
        }
        match next.settled(self.alloc, self.most_changes) {
            Ok(settled) => settled,
            Err(AllocError) => next,
        }
    }

    /// The histories after the command, made from those before it; `None` if these are not kept, or memory runs out.
    fn next_histories(&self, command: &Command) -> Option<Rc<Histories>>
        ensures { IfSome result (λ next. (commands : List CommandOf) → AreRecordsOf L.Ledger self.now commands → AreAccepted [] (commands ++ command.now ∷ [])
            → AreAllRowsOf (commands ++ command.now ∷ []) (rc_value next)) }
    {
        let revision = self.ledger.revision().checked_add(1)?;
        let histories = self.kept.histories()?;
        let next = histories_after(self.alloc, histories, command, revision).ok()?;
        Rc::new(self.alloc, self.settled(next)).ok()
    }
}

impl<L: HistoryLedger> Records<L> {
    ghost use Rattle.std.specs.Prelude.{◌≡◌, ◌≤◌, List, length, true, false, None, IfErr, IfOk, IfSome};
    ghost use Rattle.cad_versions.specs.declared.command.Command.{Command as CommandOf};
    ghost use Rattle.cad_versions.specs.AsOf.{as_of};
    ghost use Rattle.cad_history.specs.Snapshots.{IsSnapshotOf};
    ghost use Rattle.cad_server.specs.Keeping.{KeepsOf, cached_at, rows_in};
    ghost use Rattle.cad_server.specs.Servers.{is_damage as names_damage, ledger_in, AreRecordsOf, ListsInTurn, ListsSnapshot, MakesSnapshot, Prepares, Recalls, Finds, Seeks, TellsSought, Tells};

    /// The versions that the ledger stores. Notes whether some revision shows a damaged row.
    fn stored_versions(&mut self) -> Result<Vec<StoredVersion>, RegisterFault>
        ensures listed { ListsInTurn L.Ledger (ledger_in self.old) result (ledger_in self.new) }
        ensures kept { self.new.kept ≡ self.old.kept }
        ensures noted { IfErr result (λ fault. names_damage fault ≡ true → self.new.is_damaged ≡ true) }
    {
        let stored = versions_in_turn(&mut self.ledger);
        self.is_damaged = matches!(stored, Err(RegisterFault::Damaged { .. }));
        stored
    }

    /// Reads what the ledger stores, and makes the histories of all collections.
    fn read(&mut self) -> Result<(), RegisterFault>
        ensures { Prepares L.Ledger self.old result self.new }
    {
        let newest = self.ledger.revision();
        let versions = self.stored_versions()?;
        let histories = Histories::of_register(self.alloc, &versions, newest)?;
        let totals = Totals {
            highest_object: Some(highest_in(&versions)),
            ..*self.kept.totals()
        };
        drop(versions);
        let histories = Rc::new(self.alloc, histories)?;
        self.kept.replace(Some(histories), totals);
        Ok(())
    }

    /// Makes the histories of all collections, if they are not kept. The ledger is read only for that.
    pub(crate) fn prepare(&mut self) -> Result<(), RegisterFault>
        ensures prepared { Prepares L.Ledger self.old result self.new }
        ensures unasked { ¬ (rows_in self.old.kept ≡ None) → ledger_in self.new ≡ ledger_in self.old }
    {
        if self.kept.histories().is_some() {
            return Ok(());
        }
        self.read()
    }

    /// A snapshot of the revision. An error means out of memory.
    fn snapshot_at(&self, revision: u64) -> Result<Snapshot, AllocError>
        ensures revision { IfOk result (λ snapshot. snapshot.revision ≡ revision) }
        ensures snapshot { IfOk result (λ snapshot. (commands : List CommandOf) → KeepsOf commands self.now.kept → revision ≤ length commands → IsSnapshotOf revision (as_of revision commands) snapshot) }
    {
        match self.kept.histories() {
            Some(histories) => Snapshot::at(histories, revision),
            None => Err(AllocError),
        }
    }

    /// A snapshot of the revision, from the rows of this revision alone.
    fn list_snapshot(&mut self, revision: u64) -> Result<Snapshot, RegisterFault>
        requires { self.old.is_damaged ≡ true }
        ensures { ListsSnapshot L.Ledger revision self.old result self.new }
    {
        let versions = self.ledger.as_of(revision)?;
        Ok(Snapshot::build(self.alloc, revision, versions)?)
    }

    /// A snapshot of the revision, from all that the ledger stores. If a row is damaged, those of the revision may be sound.
    fn read_snapshot(&mut self, revision: u64) -> Result<Snapshot, RegisterFault>
        requires { self.old.is_damaged ≡ false }
        ensures { MakesSnapshot L.Ledger revision self.old result self.new }
    {
        match self.prepare() {
            Ok(()) => Ok(self.snapshot_at(revision)?),
            Err(fault) if is_damage(&fault) => self.list_snapshot(revision),
            Err(fault) => Err(fault),
        }
    }

    /// A snapshot of an existing revision. The ledger is read only if the features at every revision are not kept.
    fn make_snapshot(&mut self, revision: u64) -> Result<Snapshot, RegisterFault>
        ensures made { MakesSnapshot L.Ledger revision self.old result self.new }
        ensures unasked { ¬ (rows_in self.old.kept ≡ None) → ledger_in self.new ≡ ledger_in self.old }
    {
        if self.kept.histories().is_some() {
            return Ok(self.snapshot_at(revision)?);
        }
        if self.is_damaged {
            return self.list_snapshot(revision);
        }
        self.read_snapshot(revision)
    }

    /// The snapshot of the revision, if it is kept.
    fn recall(&mut self, revision: u64) -> Result<Option<Snapshot>, AllocError>
        ensures { Recalls L.Ledger revision self.old result self.new }
    {
        let Some(snapshot) = self.kept.at(revision) else {
            return Ok(None);
        };
        let shared = snapshot.share()?;
        self.kept.touch(revision);
        Ok(Some(shared))
    }

    /// A snapshot of an existing revision, which is made, and kept from then on, if there is memory.
    fn look(&mut self, revision: u64) -> Result<Snapshot, RegisterFault>
        requires { (commands : List CommandOf) → L.Ledger.stands_for (ledger_in self.old) commands → revision ≤ length commands }
        ensures found { Finds L.Ledger revision self.old result self.new }
        ensures unasked { ¬ (rows_in self.old.kept ≡ None) → ledger_in self.new ≡ ledger_in self.old }
    {
        let snapshot = self.make_snapshot(revision)?;
        let shared = snapshot.share()?;
        self.kept.add(shared);
        Ok(snapshot)
    }

    /// A snapshot of an existing revision. The ledger is read only if nothing was read since the start, memory ran out, or a row is damaged.
    fn find(&mut self, revision: u64) -> Result<Snapshot, RegisterFault>
        requires { (commands : List CommandOf) → L.Ledger.stands_for (ledger_in self.old) commands → revision ≤ length commands }
        ensures found { Finds L.Ledger revision self.old result self.new }
        ensures unasked { ¬ (rows_in self.old.kept ≡ None) → ledger_in self.new ≡ ledger_in self.old }
    {
        match self.recall(revision)? {
            Some(snapshot) => Ok(snapshot),
            None => self.look(revision),
        }
    }

    /// A snapshot of the revision that is asked for, or of the newest; `None` if the revision does not exist.
    fn seek(&mut self, sought: &FeatureRequest) -> Result<Option<Snapshot>, RegisterFault>
        ensures { Seeks L.Ledger sought.now self.old result self.new }
    {
        let newest = self.ledger.revision();
        let revision = revision_of(sought, newest);
        if newest < revision {
            return Ok(None);
        }
        let snapshot = self.find(revision)?;
        Ok(Some(snapshot))
    }

    /// Where the answer is for features that are sought.
    fn answer(&mut self, sought: FeatureRequest) -> Result<Located, RegisterFault>
        ensures { TellsSought L.Ledger sought self.old result self.new }
    {
        match self.seek(&sought) {
            Ok(found) => {
                let told = located_of(self.alloc, sought, found)?;
                Ok(told)
            }
            Err(fault) => {
                drop(sought);
                Err(fault)
            }
        }
    }

    /// What a request wants. An error means out of memory, or a fault of the ledger.
    pub(crate) fn tell(&mut self, wanted: ParsedRequest) -> Result<Located, RegisterFault>
        ensures { Tells L.Ledger wanted self.old result self.new }
    {
        match wanted {
            ParsedRequest::Immediate(response) => Ok(Located::Response(response)),
            ParsedRequest::Features(sought) => self.answer(sought),
        }
    }
}

impl<L: JournalLedger> Records<L> {
    ghost use Rattle.cad_server.specs.Chaining.{KeepsChain};
    ghost use Rattle.cad_server.specs.inner.Journals.{BeginsReading, ReadsRows};

    /// Reads all commands of the ledger, and keeps their chain from then on.
    pub(crate) fn keep_chain(&mut self) -> Result<(), RegisterFault>
        ensures { KeepsChain L.Ledger L.JournalLedger.own self.old result self.new }
    {
        let chain = ledger_chain(self.alloc, &mut self.ledger)?;
        self.kept.keep_chain(chain);
        Ok(())
    }

    /// Begins to read the ledger's commands after a revision.
    pub(crate) fn begin_journal(&self, behind: u64) -> Result<L::Reading, RegisterFault>
        ensures { BeginsReading L.Ledger L.JournalLedger.own self.now behind result }
    {
        self.ledger.begin_journal(behind)
    }

    /// Reads the next rows of the ledger's journal, and returns whether all were read.
    pub(crate) fn read_on(
        &mut self,
        reading: &mut L::Reading,
        most: u32,
    ) -> Result<bool, RegisterFault>
        ensures { ReadsRows L.Ledger L.JournalLedger.own self.old reading.old most result self.new reading.new }
    {
        self.ledger.read_on(reading, most)
    }
}
