//! The search for a page.

ghost use Rattle.std.specs.Prelude.{◌≡◌, IfOk, filter, option_map};
ghost use Rattle.cad_lookup.specs.Candidates.{candidates};
ghost use Rattle.cad_run.specs.Pages.{examined_of};
ghost use Rattle.cad_run.specs.Slices.{identifier, slice, is_more, later, rows_of};

use crate::candidates::Candidates;
use crate::feature_source::FeatureSource;
use crate::feature_test::FeatureTest;
use crate::finding::find;
use crate::rows::Page;
use cad_layer::Layer;
use cad_lookup::Plan;
use cad_versions::ObjectId;
use std::alloc::{AllocError, Global};

/// The rest of the source after the named feature, or all of it.
fn left_after<'a, S: FeatureSource<'a>>(source: S, after: Option<(ObjectId, u32)>) -> S
    ensures { S.left result ≡ later (option_map identifier after) (S.left source) }
{
    match after {
        None => source,
        Some(last) => {
            let mut source = source;
            source.seek(last);
            source
        }
    }
}

/// The page of a source's features that pass the test: the first of them after the named one, at most `limit` of them. An error means
/// out of memory.
///
/// They are tested in their order, each once, up to the one that shows that more are left.
pub fn page_of<'a, S: FeatureSource<'a>, T: FeatureTest>(
    alloc: Global,
    source: S,
    test: &T,
    after: Option<(ObjectId, u32)>,
    limit: u32,
) -> Result<Page<'a>, AllocError>
    ensures rows { IfOk result (λ page. rows_of page ≡ slice (option_map identifier after) limit (filter (T.passes test.now) (S.left source))) }
    ensures more { IfOk result (λ page. page.more ≡ is_more (option_map identifier after) limit (filter (T.passes test.now) (S.left source))) }
    ensures examined { IfOk result (λ page. page.examined ≡ examined_of (T.passes test.now) limit (later (option_map identifier after) (S.left source))) }
{
    let left = left_after(source, after);
    let page = find(alloc, left, test, limit as usize)?;
    Ok(page)
}

/// The page of the plan's candidates that pass the test: the first of them after the named one, at most `limit` of them. An error means
/// out of memory.
///
/// Candidates are tested in their order, each once, up to the one that shows that more are left.
pub fn page<'a, T: FeatureTest>(
    alloc: Global,
    plan: &Plan,
    layer: &'a Layer,
    test: &T,
    after: Option<(ObjectId, u32)>,
    limit: u32,
) -> Result<Page<'a>, AllocError>
    ensures rows { IfOk result (λ page. rows_of page
        ≡ slice (option_map identifier after) limit (filter (T.passes test.now) (candidates plan.now layer.now.features))) }
    ensures more { IfOk result (λ page. page.more
        ≡ is_more (option_map identifier after) limit (filter (T.passes test.now) (candidates plan.now layer.now.features))) }
    ensures examined { IfOk result (λ page. page.examined
        ≡ examined_of (T.passes test.now) limit (later (option_map identifier after) (candidates plan.now layer.now.features))) }
{
    let all = Candidates::of(alloc, plan, layer);
    let page = page_of(alloc, all, test, after, limit)?;
    Ok(page)
}
