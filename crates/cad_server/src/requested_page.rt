//! A page that is asked for.

ghost use Rattle.std.specs.Prelude.{◌≡◌, ◌+◌, ◌-◌, ◌≤◌, ◌<◌, false, length, min, IfOk, IsTrue};
ghost use Rattle.cad_history.specs.Snapshots.{features_at};
ghost use Rattle.cad_run.specs.Owed.{IfPart};
ghost use Rattle.cad_page.specs.Pieces.{remaining_in, ComesOf, IsFound, IsSearchFor};
ghost use Rattle.cad_page.specs.Plans.{AreCountsFor, counts_in};
ghost use Rattle.cad_server.specs.Stages.{leaves_left, reply_with};

use crate::stage::{Counted, Planned};
use crate::work_meter::WorkMeter;
use cad_head::{Status, reply_bytes};
use cad_history::Snapshot;
use cad_page::{
    Ask, Progress, Search, counted_plan, first_search, found_body, page_counts, page_piece,
};
use std::alloc::{AllocError, Global};

/// A page that is asked for, and the features of its revision.
#[derive(Drop)]
pub(crate) struct RequestedPage {
    pub(crate) ask: Ask,
    pub(crate) snapshot: Snapshot,
    /// Whether the connection ends after the reply.
    pub(crate) ends: bool,
}

impl RequestedPage {
    /// Counts at most so many further leaves of the full plan, and says whether all are counted then. An error means out of memory.
    pub(crate) fn count(
        &self,
        counted: &mut Counted,
        most: u32,
        meter: &mut WorkMeter,
    ) -> Result<bool, AllocError>
        requires { AreCountsFor counted.old.full counted.old.counts.items self.now.ask self.now.snapshot }
        ensures counts { IfOk result (λ all. AreCountsFor counted.new.full counted.new.counts.items self.now.ask self.now.snapshot) }
        ensures all { IfOk result (λ all. IsTrue all → counted.new.counts.items ≡ counts_in counted.new.full self.now.ask self.now.snapshot) }
        ensures smaller { IfOk result (λ all. all ≡ false → leaves_left counted.new self.now.ask self.now.snapshot + most ≤ leaves_left counted.old self.now.ask self.now.snapshot) }
        ensures counted { meter.new.counted ≡ min (meter.old.counted + (length counted.new.counts.items - length counted.old.counts.items)) 18446744073709551615 }
        ensures tested { meter.new.tested ≡ meter.old.tested }
        ensures bounded { meter.new.counted ≤ meter.old.counted + most }
    {
        let before = counted.counts.len() as u64;
        let all = page_counts(
            &self.ask,
            &counted.full,
            &self.snapshot,
            &mut counted.counts,
            most,
        );
        let after = counted.counts.len() as u64;
        meter.add_counted(after.saturating_sub(before));
        all
    }

    /// The plan that is chosen for the page by the counts of all leaves, and the search of which nothing is done. An error means out of memory.
    pub(crate) fn plan(&self, alloc: Global, counted: &Counted) -> Result<Planned, AllocError>
        requires counts { AreCountsFor counted.now.full counted.now.counts.items self.now.ask self.now.snapshot }
        requires all { counted.now.counts.items ≡ counts_in counted.now.full self.now.ask self.now.snapshot }
        ensures { IfOk result (λ planned. IsSearchFor planned.plan planned.search self.now.ask self.now.snapshot
            × (remaining_in planned.search self.now.ask self.now.snapshot ≤ length (features_at self.now.snapshot self.now.ask.collection))) }
    {
        let plan = counted_plan(
            alloc,
            &self.ask,
            &counted.full,
            &counted.counts,
            &self.snapshot,
        )?;
        let search = first_search(alloc, &self.ask, &plan, &self.snapshot);
        Ok(Planned { plan, search })
    }

    /// Goes on with the search. An error means out of memory.
    pub(crate) fn search(
        &self,
        alloc: Global,
        planned: &mut Planned,
        budget: u32,
        meter: &mut WorkMeter,
    ) -> Result<Progress, AllocError>
        requires some { 0 < budget }
        requires search { IsSearchFor planned.old.plan planned.old.search self.now.ask self.now.snapshot }
        ensures comes { IfOk result (λ progress. ComesOf progress planned.new.plan planned.new.search self.now.ask self.now.snapshot) }
        ensures smaller { IfOk result (λ progress. IfPart progress (remaining_in planned.new.search self.now.ask self.now.snapshot < remaining_in planned.old.search self.now.ask self.now.snapshot)) }
        ensures tested { meter.new.tested ≡ min (meter.old.tested + (planned.new.search.examined - planned.old.search.examined)) 18446744073709551615 }
        ensures counted { meter.new.counted ≡ meter.old.counted }
        ensures bounded { meter.new.tested ≤ meter.old.tested + budget }
    {
        let before = planned.search.examined();
        let progress = page_piece(
            alloc,
            &self.ask,
            &planned.plan,
            &self.snapshot,
            &mut planned.search,
            budget,
        );
        meter.add_tested(planned.search.examined().saturating_sub(before));
        progress
    }

    /// The reply with the page that was found. An error means out of memory.
    pub(crate) fn reply(
        &self,
        alloc: Global,
        search: &Search,
        more: bool,
    ) -> Result<Vec<u8>, AllocError>
        requires { IsFound search.now more self.now.ask self.now.snapshot }
        ensures { IfOk result (λ bytes. bytes.items ≡ reply_with self.now.ask self.now.snapshot self.now.ends) }
    {
        let text = found_body(alloc, &self.ask, &self.snapshot, search, more)?;
        let bytes = reply_bytes(alloc, Status::Ok, self.ends, text.as_str())?;
        Ok(bytes)
    }
}
