//! A page in pieces.

ghost use Rattle.std.specs.Prelude.{◌≡◌, IfOk, IfSome, option_map};
ghost use Rattle.cad_run.specs.Owed.{page_in, page_after};
ghost use Rattle.cad_run.specs.Slices.{identifier};

use crate::counted_test::CountedTest;
use crate::opens::Opens;
use crate::search::{Progress, Search};
use cad_versions::ObjectId;
use std::alloc::{AllocError, Global};

/// The page, by one piece for each of these budgets, each with a source of its own; `None` if the search is not over after them. Whatever the
/// budgets are, it is the page that one search of all features would find.
pub fn page_in_pieces<'a, O: Opens<'a>, T: CountedTest>(
    alloc: Global,
    features: &O,
    test: &mut T,
    after: Option<(ObjectId, u32)>,
    limit: u32,
    budgets: &[u32],
) -> Result<Option<(Search, bool)>, AllocError>
    ensures { IfOk result (λ found. IfSome found (λ page. page_in page.0 page.1 ≡ page_after (T.passes test.old) (option_map identifier after) limit (O.features features.now))) }
{
    let mut search = Search::new(alloc, after, limit);
    for budget in budgets {
        let mut source = features.open()?;
        match search.piece(&mut source, test, *budget)? {
            Progress::Part => {}
            Progress::Whole { more } => return Ok(Some((search, more))),
        }
    }
    Ok(None)
}
