//! Pages in pieces.

ghost use Rattle.std.specs.Prelude.{◌≡◌, ◌<◌, IfOk};
ghost use Rattle.cad_page.specs.Plans.{CoversAnswer, counts_in};

use cad_lookup::Plan;
use cad_page::{
    Ask, Progress, Snapshot, as_bytes, counted_plan, first_search, page_counts, page_full_plan,
    page_piece, page_plan,
};
use std::alloc::{AllocError, Global};

/// The counts of all leaves of the full plan, so many at a time.
fn counts_in_pieces(
    alloc: Global,
    ask: &Ask,
    full: &Plan,
    snapshot: &Snapshot,
    budget: u32,
) -> Result<Vec<u64>, AllocError>
    requires { 0 < budget }
    ensures { IfOk result (λ counts. counts.items ≡ counts_in full.now ask.now snapshot.now) }
{
    let mut counts = Vec::new(alloc);
    'pieces: loop {
        let all = page_counts(ask, full, snapshot, &mut counts, budget)?;
        if all {
            return Ok(counts);
        }
    }
}

/// The plan for the page, for which so many leaves are counted at a time.
fn plan_in_pieces(
    alloc: Global,
    ask: &Ask,
    snapshot: &Snapshot,
    budget: u32,
) -> Result<Plan, AllocError>
    requires { 0 < budget }
    ensures { IfOk result (λ plan. CoversAnswer plan ask.now snapshot.now) }
{
    let full = page_full_plan(alloc, ask)?;
    let counts = counts_in_pieces(alloc, ask, &full, snapshot, budget)?;
    let plan = counted_plan(alloc, ask, &full, &counts, snapshot)?;
    Ok(plan)
}

/// The body of the page, searched for by the plan in pieces of so many features.
fn body_in_pieces(
    alloc: Global,
    ask: &Ask,
    plan: &Plan,
    snapshot: &Snapshot,
    budget: u32,
) -> Result<Vec<u8>, AllocError>
    requires some { 0 < budget }
    requires covers { CoversAnswer plan.now ask.now snapshot.now }
{
    let mut search = first_search(alloc, ask, plan, snapshot);
    'pieces: loop {
        match page_piece(alloc, ask, plan, snapshot, &mut search, budget)? {
            Progress::Part => {}
            Progress::Whole { more } => {
                return as_bytes::found_body(alloc, ask, snapshot, &search, more);
            }
        }
    }
}

/// Whether pieces of so many leaves, and then of so many features, make this page.
fn is_made(
    alloc: Global,
    ask: &Ask,
    snapshot: &Snapshot,
    body: &[u8],
    budget: u32,
) -> Result<bool, AllocError>
    requires { 0 < budget }
{
    let plan = plan_in_pieces(alloc, ask, snapshot, budget)?;
    let found = body_in_pieces(alloc, ask, &plan, snapshot, budget)?;
    Ok(found.as_slice() == body)
}

/// The first number of leaves and of features whose pieces make another page than this one; 0 if the plan that is chosen at once does.
pub fn misleading_budget(
    alloc: Global,
    ask: &Ask,
    snapshot: &Snapshot,
    body: &[u8],
) -> Result<Option<u32>, AllocError> {
    let plan = page_plan(alloc, ask, snapshot)?;
    let found = body_in_pieces(alloc, ask, &plan, snapshot, 7)?;
    if found.as_slice() != body {
        return Ok(Some(0));
    }
    for budget in 1..8 {
        if !is_made(alloc, ask, snapshot, body, budget)? {
            return Ok(Some(budget));
        }
    }
    Ok(None)
}
