//! Going on with the work for a page.

ghost use Rattle.std.specs.Prelude.{◌≡◌, ◌+◌, ◌≤◌, ◌<◌, IfOk};
ghost use Rattle.std.specs.Prelude.{length};
ghost use Rattle.cad_history.specs.Snapshots.{features_at};
ghost use Rattle.cad_page.specs.Pieces.{remaining_in, IsFound, IsSearchFor};
ghost use Rattle.cad_page.specs.Plans.{AreCountsFor};
ghost use Rattle.cad_stream.specs.Beginning.{told, IfLeft};
ghost use Rattle.cad_server.specs.Stages.{leaves_left, most_leaves, reply_with};
ghost use Rattle.cad_server.specs.Works.{remaining_of, reply_owed, spent_by};

use crate::page_work::PageWork;
use crate::requested_page::RequestedPage;
use crate::stage::{Counted, Planned, Stage};
use crate::work_meter::WorkMeter;
use cad_page::{Progress, Search, test_weight};
use cad_stream::Part;
use std::alloc::{AllocError, Global};

/// How many times a number is read and compared at most in a piece of work, for each unit of its budget: a piece then takes one to three
/// milliseconds, whatever the filter is.
const COMPARISONS_FOR_A_UNIT: u64 = 100;

/// Any piece may test at least its budget divided by this: what a piece costs beside its tests should not be most of it.
const LEAST_SHARE: u64 = 64;

/// How many leaves of a plan are counted in a piece at most. One takes as long as hundreds of tests, in each segment and at an old revision.
const LEAVES_IN_A_PIECE: u32 = 32;

/// The most weight of a filter whose plan is chosen in the same piece in which the search begins.
const LIGHT: u64 = 64;

/// How many features are tested in a piece at most where a reply is made at once.
const WHOLE: u32 = u32::MAX;

/// The most rows whose text is written in the same piece in which the search ends.
const FEW_ROWS: usize = 100;

/// How many features a piece of work may test for a filter of this weight.
fn features_for(budget: u32, weight: u64) -> u32
    requires { 0 < budget }
    ensures some { 0 < result }
    ensures few { result ≤ budget }
{
    let most = u64::from(budget);
    let wanted = most.saturating_mul(COMPARISONS_FOR_A_UNIT) / weight.saturating_add(4);
    wanted.max(most / LEAST_SHARE).max(1).min(most) as u32
}

/// The reply with the page that was found, if it has few rows. Otherwise the text is a piece of its own. An error means out of memory.
fn write_or_wait(
    alloc: Global,
    page: RequestedPage,
    search: Search,
    more: bool,
) -> Result<Part<PageWork>, AllocError>
    requires { IsFound search more page.ask page.snapshot }
    ensures owes { IfOk result (λ part. told reply_owed part ≡ reply_with page.ask page.snapshot page.ends) }
    ensures written { IfOk result (λ part. IfLeft part (λ next. remaining_of next ≡ 0)) }
{
    if search.found().len() <= FEW_ROWS {
        let bytes = page.reply(alloc, &search, more)?;
        return Ok(Part::Made(bytes));
    }
    Ok(Part::Left(PageWork {
        page,
        stage: Stage::Writing { search, more },
    }))
}

/// Goes on with the search for the page. An error means out of memory.
fn search_on(
    alloc: Global,
    page: RequestedPage,
    planned: Planned,
    budget: u32,
    meter: &mut WorkMeter,
) -> Result<Part<PageWork>, AllocError>
    requires some { 0 < budget }
    requires search { IsSearchFor planned.plan planned.search page.ask page.snapshot }
    ensures owes { IfOk result (λ part. told reply_owed part ≡ reply_with page.ask page.snapshot page.ends) }
    ensures smaller { IfOk result (λ part. IfLeft part (λ next. remaining_of next < 1 + remaining_in planned.search page.ask page.snapshot)) }
    ensures bounded { spent_by meter.new ≤ spent_by meter.old + budget }
    ensures counted { meter.new.counted ≡ meter.old.counted }
{
    let mut planned = planned;
    match page.search(alloc, &mut planned, budget, meter)? {
        Progress::Part => Ok(Part::Left(PageWork {
            page,
            stage: Stage::Searching(planned),
        })),
        Progress::Whole { more } => write_or_wait(alloc, page, planned.search, more),
    }
}

/// Counts leaves of the full plan. If all are counted, a plan is chosen, and the search begins if the filter is short and the budget is not used
/// up. An error means out of memory.
fn count_on(
    alloc: Global,
    page: RequestedPage,
    counted: Counted,
    weight: u64,
    budget: u32,
    meter: &mut WorkMeter,
) -> Result<Part<PageWork>, AllocError>
    requires some { 0 < budget }
    requires counts { AreCountsFor counted.full counted.counts.items page.ask page.snapshot }
    ensures owes { IfOk result (λ part. told reply_owed part ≡ reply_with page.ask page.snapshot page.ends) }
    ensures smaller { IfOk result (λ part. IfLeft part (λ next. remaining_of next < 2 + length (features_at page.snapshot page.ask.collection) + leaves_left counted page.ask page.snapshot)) }
    ensures bounded { spent_by meter.new ≤ spent_by meter.old + budget }
    ensures leaves { meter.new.counted ≤ meter.old.counted + most_leaves }
{
    let leaves = LEAVES_IN_A_PIECE.min(budget);
    let rest = budget - leaves;
    let mut counted = counted;
    let all = page.count(&mut counted, leaves, meter)?;
    if !all {
        return Ok(Part::Left(PageWork {
            page,
            stage: Stage::Counting(counted),
        }));
    }
    let planned = page.plan(alloc, &counted)?;
    if rest == 0 || LIGHT < weight {
        return Ok(Part::Left(PageWork {
            page,
            stage: Stage::Searching(planned),
        }));
    }
    search_on(alloc, page, planned, features_for(rest, weight), meter)
}

/// Goes on with it: leaves are counted, a plan is chosen, features are looked at, or the text is written. What takes long is a piece of its own.
pub(crate) fn go_on(
    alloc: Global,
    work: PageWork,
    budget: u32,
    meter: &mut WorkMeter,
) -> Result<Part<PageWork>, AllocError>
    requires { 0 < budget }
    ensures owes { IfOk result (λ part. told reply_owed part ≡ reply_owed work) }
    ensures smaller { IfOk result (λ part. IfLeft part (λ next. remaining_of next < remaining_of work)) }
    ensures bounded { spent_by meter.new ≤ spent_by meter.old + budget }
    ensures leaves { meter.new.counted ≤ meter.old.counted + most_leaves }
{
    let PageWork { page, stage } = work;
    let weight = test_weight(&page.ask);
    match stage {
        Stage::Counting(counted) => count_on(alloc, page, counted, weight, budget, meter),
        Stage::Searching(planned) => {
            let features = features_for(budget, weight);
            search_on(alloc, page, planned, features, meter)
        }
        Stage::Writing { search, more } => {
            let bytes = page.reply(alloc, &search, more)?;
            Ok(Part::Made(bytes))
        }
    }
}

/// The reply, which is made at once. An error means out of memory.
pub(crate) fn finish(alloc: Global, begun: Part<PageWork>) -> Result<Vec<u8>, AllocError>
    ensures { IfOk result (λ bytes. bytes.items ≡ told reply_owed begun) }
{
    let mut meter = WorkMeter::default();
    let mut part = begun;
    loop {
        match part {
            Part::Made(bytes) => return Ok(bytes),
            Part::Left(work) => part = go_on(alloc, work, WHOLE, &mut meter)?,
        }
    }
}
