//! The page that is asked for, in pieces.

ghost use Rattle.std.specs.Prelude.{◌≡◌, ◌+◌, ◌≤◌, Contains, IfOk, Some, length, map, option_copied, option_map};
ghost use Rattle.std.specs.List.{All};
ghost use Rattle.cad_feature.specs.Features.{IsFeatureOf, Item, identifier_of};
ghost use Rattle.cad_history.specs.Snapshots.{features_at};
ghost use Rattle.cad_run.specs.Slices.{identifier as identifier_in, lent, rows_of};
ghost use Rattle.cad_page.specs.Pages.{beginning, is_more_in, rows_in};
ghost use Rattle.cad_page.specs.Plans.{CoversAnswer, IsFormOf};
ghost use Rattle.cad_page.specs.Pieces.{ComesOf, IsFound, IsSearchFor, remaining_in};
ghost use Rattle.cad_run.specs.Owed.{IfPart};

use crate::finding::query;
use crate::planning::{box_filter, page_form};
use cad_answer::laws::covering_plans_have_the_answer;
use cad_answer::{Page, Plan, Progress, Search, piece};
use cad_ask::Ask;
use cad_feature::Feature;
use cad_history::Snapshot;
use cad_layer::laws::identifiers_are_unique;
use cad_schema::Collection;
use cad_versions::ObjectId;
use cql_rewrite::Normal;
use std::alloc::{AllocError, Global};

// A piece of the search, by this normal form of what is asked.
fn piece_by<'f>(
    alloc: Global,
    ask: &'f Ask,
    form: &Normal<'f>,
    plan: &Plan,
    snapshot: &Snapshot,
    search: &mut Search,
    budget: u32,
) -> Result<Progress, AllocError>
    requires form { IsFormOf ask.now form.now }
    requires search { IsSearchFor plan.now search.old ask.now snapshot.now }
    ensures comes { IfOk result (λ progress. ComesOf progress plan.now search.new ask.now snapshot.now) }
    ensures smaller { IfOk result (λ progress. IfPart progress (remaining_in search.new ask.now snapshot.now + budget ≤ remaining_in search.old ask.now snapshot.now)) }
    ensures progress { search.new.examined ≤ search.old.examined + budget }
{
    covering_plans_have_the_answer();
    let features = snapshot.features(ask.collection);
    piece(alloc, plan, &features, query(ask, form), search, budget)
}

/// Goes on with the search for the page that is asked for, by the plan that was chosen for it: at most `budget` candidates are tested. If the
/// search is not over then, at least so many features of the collection were passed. The normal form is made anew for each piece. An error
/// means out of memory.
pub fn page_piece(
    alloc: Global,
    ask: &Ask,
    plan: &Plan,
    snapshot: &Snapshot,
    search: &mut Search,
    budget: u32,
) -> Result<Progress, AllocError>
    requires { IsSearchFor plan.now search.old ask.now snapshot.now }
    ensures comes { IfOk result (λ progress. ComesOf progress plan.now search.new ask.now snapshot.now) }
    ensures smaller { IfOk result (λ progress. IfPart progress (remaining_in search.new ask.now snapshot.now + budget ≤ remaining_in search.old ask.now snapshot.now)) }
    ensures progress { search.new.examined ≤ search.old.examined + budget }
{
    let boxed = box_filter(ask);
    let form = page_form(alloc, ask, &boxed)?;
    piece_by(alloc, ask, &form, plan, snapshot, search, budget)
}

// The feature that the page begins after.
fn after_in(ask: &Ask) -> Option<(ObjectId, u32)>
    ensures { option_map identifier_in result ≡ beginning ask.now }
{
    match ask.continuation.after {
        None => None,
        Some(last) => Some((last.object, last.number)),
    }
}

/// The search for the page that is asked for, of which nothing was tested.
pub fn first_search(alloc: Global, ask: &Ask, plan: &Plan, snapshot: &Snapshot) -> Search
    requires { CoversAnswer plan.now ask.now snapshot.now }
    ensures search { IsSearchFor plan.now result ask.now snapshot.now }
    ensures remaining { remaining_in result ask.now snapshot.now ≤ length (features_at snapshot.now ask.now.collection) }
{
    // There are fewer features than a counter can hold.
    let features = snapshot.features(ask.collection);
    let _count = features.count();
    Search::new(alloc, after_in(ask), ask.selection.limit)
}

// The feature with this identifier, if the snapshot has one.
fn feature_found(
    snapshot: &Snapshot,
    collection: Collection,
    identifier: (ObjectId, u32),
) -> Option<&Feature>
    ensures { (x : Item) → Contains (features_at snapshot.now collection) x → identifier_of x ≡ identifier_in identifier → option_copied result ≡ Some x }
{
    identifiers_are_unique();
    snapshot.feature(collection, identifier.0, identifier.1)
}

// The rows of the page whose identifiers a search found, lent from the snapshot.
fn rows_found<'a>(
    alloc: Global,
    ask: &Ask,
    snapshot: &'a Snapshot,
    found: &[(ObjectId, u32)],
) -> Result<Vec<&'a Feature>, AllocError>
    requires { map identifier_in found.now ≡ map identifier_of (rows_in ask.now snapshot.now) }
    ensures { IfOk result (λ rows. lent rows.items ≡ rows_in ask.now snapshot.now) }
{
    let mut rows = Vec::new(alloc);
    for identifier in found {
        let Some(feature) = feature_found(snapshot, ask.collection, *identifier) else {
            unreachable!()
        };
        rows.push(feature)?;
    }
    Ok(rows)
}

/// The page that a search found; `more` is what the search told.
pub(crate) fn page_of_search<'a>(
    alloc: Global,
    ask: &Ask,
    snapshot: &'a Snapshot,
    search: &Search,
    more: bool,
) -> Result<Page<'a>, AllocError>
    requires { IsFound search.now more ask.now snapshot.now }
    ensures rows { IfOk result (λ page. rows_of page ≡ rows_in ask.now snapshot.now) }
    ensures more { IfOk result (λ page. page.more ≡ is_more_in ask.now snapshot.now) }
    ensures features { IfOk result (λ page. All (IsFeatureOf ask.now.collection) (rows_of page)) }
{
    // The features are the collection's.
    let features = snapshot.features(ask.collection);
    let _collection = features.collection();
    let rows = rows_found(alloc, ask, snapshot, search.found())?;
    Ok(Page {
        rows,
        more,
        examined: search.examined(),
    })
}
