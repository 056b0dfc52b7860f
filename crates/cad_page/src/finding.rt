//! What a request asks of a snapshot.

ghost use Rattle.std.specs.Prelude.{◌≡◌, IfOk};
ghost use Rattle.std.specs.List.{All};
ghost use Rattle.cad_feature.specs.Features.{IsFeatureOf};
ghost use Rattle.cad_answer.specs.Answers.{restrictions_of};
ghost use Rattle.cad_answer.specs.Answers.{after_of};
ghost use Rattle.cad_run.specs.Slices.{rows_of};
ghost use Rattle.cad_page.specs.Pages.{restrictions, beginning, rows_in, is_more_in};
ghost use Rattle.cad_page.specs.Plans.{CoversAnswer, IsChosen, IsFormOf, examined_in};

use crate::planning::{box_filter, page_form, plan_for};
use cad_answer::laws::covering_plans_have_the_answer;
use cad_answer::{Page, PageQuery, Plan, page};
use cad_ask::Ask;
use cad_history::Snapshot;
use cql_rewrite::Normal;
use std::alloc::{AllocError, Global};

/// A page, with the plan by which it was found.
#[derive(Drop)]
pub(crate) struct Planned<'a> {
    pub(crate) plan: Plan,
    pub(crate) page: Page<'a>,
}

// The query, with the normal form of what is asked.
pub(crate) fn query<'a, 'f>(ask: &'f Ask, form: &'a Normal<'f>) -> PageQuery<'a, 'f>
    ensures asked { restrictions_of result ≡ restrictions ask.now }
    ensures form { result.normal.now ≡ form.now }
    ensures after { after_of result ≡ beginning ask.now }
    ensures limit { result.limit ≡ ask.now.selection.limit }
{
    let after = match ask.continuation.after {
        None => None,
        Some(last) => Some((last.object, last.number)),
    };
    PageQuery {
        days: ask.selection.datetime,
        bounds: ask.selection.bbox,
        filter: ask.filter.as_ref(),
        normal: form,
        after,
        limit: ask.selection.limit,
    }
}

// The page of the plan's candidates that also meet the form.
fn page_where<'a, 'f>(
    alloc: Global,
    ask: &'f Ask,
    plan: &Plan,
    form: &Normal<'f>,
    snapshot: &'a Snapshot,
) -> Result<Page<'a>, AllocError>
    requires form { IsFormOf ask.now form.now }
    requires covers { CoversAnswer plan.now ask.now snapshot.now }
    ensures rows { IfOk result (λ page. rows_of page ≡ rows_in ask.now snapshot.now) }
    ensures more { IfOk result (λ page. page.more ≡ is_more_in ask.now snapshot.now) }
    ensures examined { IfOk result (λ page. page.examined ≡ examined_in plan.now ask.now snapshot.now) }
    ensures features { IfOk result (λ page. All (IsFeatureOf ask.now.collection) (rows_of page)) }
{
    covering_plans_have_the_answer();
    let features = snapshot.features(ask.collection);
    let page = page(alloc, plan, &features, query(ask, form))?;
    Ok(page)
}

// The page that is asked for, with the plan that was chosen for it, by this normal form of what is asked.
fn planned_by<'a, 'f>(
    alloc: Global,
    ask: &'f Ask,
    form: &Normal<'f>,
    snapshot: &'a Snapshot,
) -> Result<Planned<'a>, AllocError>
    requires { IsFormOf ask.now form.now }
    ensures rows { IfOk result (λ found. rows_of found.page ≡ rows_in ask.now snapshot.now) }
    ensures more { IfOk result (λ found. found.page.more ≡ is_more_in ask.now snapshot.now) }
    ensures examined { IfOk result (λ found. found.page.examined ≡ examined_in found.plan ask.now snapshot.now) }
    ensures features { IfOk result (λ found. All (IsFeatureOf ask.now.collection) (rows_of found.page)) }
    ensures chosen { IfOk result (λ found. IsChosen found.plan ask.now snapshot.now) }
{
    let plan = plan_for(alloc, ask, form, snapshot)?;
    let page = page_where(alloc, ask, &plan, form, snapshot)?;
    Ok(Planned { plan, page })
}

/// The page that is asked for, with the plan that was chosen for it. The normal form of what is asked is made once, for the choice
/// and for the tests.
pub(crate) fn planned_page<'a>(
    alloc: Global,
    ask: &Ask,
    snapshot: &'a Snapshot,
) -> Result<Planned<'a>, AllocError>
    ensures rows { IfOk result (λ found. rows_of found.page ≡ rows_in ask.now snapshot.now) }
    ensures more { IfOk result (λ found. found.page.more ≡ is_more_in ask.now snapshot.now) }
    ensures examined { IfOk result (λ found. found.page.examined ≡ examined_in found.plan ask.now snapshot.now) }
    ensures features { IfOk result (λ found. All (IsFeatureOf ask.now.collection) (rows_of found.page)) }
    ensures chosen { IfOk result (λ found. IsChosen found.plan ask.now snapshot.now) }
{
    let boxed = box_filter(ask);
    let form = page_form(alloc, ask, &boxed)?;
    let planned = planned_by(alloc, ask, &form, snapshot)?;
    Ok(planned)
}

/// The page that is asked for.
pub(crate) fn page_found<'a>(
    alloc: Global,
    ask: &Ask,
    snapshot: &'a Snapshot,
) -> Result<Page<'a>, AllocError>
    ensures rows { IfOk result (λ page. rows_of page ≡ rows_in ask.now snapshot.now) }
    ensures more { IfOk result (λ page. page.more ≡ is_more_in ask.now snapshot.now) }
    ensures features { IfOk result (λ page. All (IsFeatureOf ask.now.collection) (rows_of page)) }
{
    let Planned { plan, page } = planned_page(alloc, ask, snapshot)?;
    drop(plan);
    Ok(page)
}
