//! A piece of the search for a page of an answer.

ghost use Rattle.std.specs.Prelude.{◌+◌, ◌≤◌, ◌<◌, ◌^◌, length, IfOk};
ghost use Rattle.cad_lookup.specs.Candidates.{candidates};
ghost use Rattle.cad_run.specs.Owed.{owes, page_in, remaining, IfPart, Keeps};
ghost use Rattle.cad_answer.specs.Answers.{restrictions_of, answers};
ghost use Rattle.cad_answer.specs.Passing.{IsFormFor};

use crate::candidates::CandidatesAt;
use crate::lifespans::lifespan_place;
use crate::query::PageQuery;
use crate::query_test::QueryTest;
use cad_history::FeaturesAt;
use cad_run::{Counted, Counting, Plan, Progress, Search};
use cql_rewrite::laws::features_are_written;
use std::alloc::{AllocError, Global};

/// Goes on with the search for the page of the plan's candidates that answer the query, by at most `budget` steps: each tests a candidate, or
/// passes a segment that has none. If the search is not over then, it has passed at least so many features. The plan, the features and what
/// is asked are those of the pieces before. An error means out of memory.
pub fn piece<'a>(
    alloc: Global,
    plan: &Plan,
    features: &FeaturesAt<'a>,
    query: PageQuery,
    search: &mut Search,
    budget: u32,
) -> Result<Progress, AllocError>
    requires form { IsFormFor query.normal.now features.now.collection (restrictions_of query) }
    requires few { search.old.examined + length (remaining search.old (candidates plan.now features.now.features)) < 2 ^ 64 }
    ensures owes { IfOk result (λ progress.
        Keeps (owes (answers features.now.collection (restrictions_of query.entry)) (candidates plan.now features.now.features) search.old) progress
        (owes (answers features.now.collection (restrictions_of query.entry)) (candidates plan.now features.now.features) search.new) (page_in search.new)) }
    ensures few { IfOk result (λ progress. IfPart progress (search.new.examined + length (remaining search.new (candidates plan.now features.now.features)) < 2 ^ 64)) }
    ensures smaller { IfOk result (λ progress. IfPart progress (length (remaining search.new features.now.features) + budget ≤ length (remaining search.old features.now.features))) }
    ensures progress { search.new.examined ≤ search.old.examined + budget }
{
    let collection = features.collection();
    features_are_written(collection);
    let test = QueryTest {
        alloc,
        place: lifespan_place(collection),
        query,
    };
    let all = CandidatesAt::of(alloc, plan, features)?;
    let mut source = Counted::new(all);
    let mut counting = Counting::new(&test);
    search.piece(&mut source, &mut counting, budget)
}
