//! The plan for what is asked, in pieces.

ghost use Rattle.std.specs.Prelude.{◌≡◌, ◌+◌, ◌≤◌, false, IfOk, IsTrue, length};
ghost use Rattle.cad_plan.specs.Leaves.{AreFirstOf};
ghost use Rattle.cad_page.specs.Plans.{CoversAnswer, IsChosenBySome, IsFormOf, IsFull, counts_in};

use crate::planning::{box_filter, page_form};
use cad_answer::Plan;
use cad_ask::Ask;
use cad_history::Snapshot;
use cad_plan::{choose_counted, count_some, full_plan};
use cql_rewrite::Normal;
use cql_rewrite::laws::features_are_written;
use std::alloc::{AllocError, Global};

// The full plan of this form.
fn full_of(alloc: Global, ask: &Ask, form: &Normal) -> Result<Plan, AllocError>
    requires { IsFormOf ask.now form.now }
    ensures { IfOk result (λ full. IsFull full ask.now) }
{
    let full = full_plan(alloc, form)?;
    Ok(full)
}

/// The plan that leaves nothing of what is asked out. Its leaves are to be counted. An error means out of memory.
pub fn page_full_plan(alloc: Global, ask: &Ask) -> Result<Plan, AllocError>
    ensures { IfOk result (λ full. IsFull full ask.now) }
{
    let boxed = box_filter(ask);
    let form = page_form(alloc, ask, &boxed)?;
    let full = full_of(alloc, ask, &form)?;
    Ok(full)
}

/// Counts at most `most` further leaves of the full plan, and says whether all are counted then. An error means out of memory.
pub fn page_counts(
    ask: &Ask,
    full: &Plan,
    snapshot: &Snapshot,
    counts: &mut Vec<u64>,
    most: u32,
) -> Result<bool, AllocError>
    requires { AreFirstOf counts.old.items (counts_in full.now ask.now snapshot.now) }
    ensures first { IfOk result (λ all. AreFirstOf counts.new.items (counts_in full.now ask.now snapshot.now)) }
    ensures all { IfOk result (λ all. IsTrue all → counts.new.items ≡ counts_in full.now ask.now snapshot.now) }
    ensures more { IfOk result (λ all. all ≡ false → length counts.new.items ≡ length counts.old.items + most) }
    ensures few { length counts.new.items ≤ length counts.old.items + most }
{
    let features = snapshot.features(ask.collection);
    let all = count_some(full, &features, counts, most)?;
    Ok(all)
}

/// The same plan as `page_plan`, from the counts of all leaves of the full plan. An error means out of memory.
pub fn counted_plan(
    alloc: Global,
    ask: &Ask,
    full: &Plan,
    counts: &[u64],
    snapshot: &Snapshot,
) -> Result<Plan, AllocError>
    requires full { IsFull full.now ask.now }
    requires counts { counts.now ≡ counts_in full.now ask.now snapshot.now }
    ensures covers { IfOk result (λ plan. CoversAnswer plan ask.now snapshot.now) }
    ensures chosen { IfOk result (λ plan. IsChosenBySome plan ask.now snapshot.now) }
{
    let features = snapshot.features(ask.collection);
    features_are_written(ask.collection);
    // The features are the collection's.
    let _ = features.collection();
    let plan = choose_counted(alloc, full, counts, &features)?;
    Ok(plan)
}
