//! A page of the features of a source.

ghost use Rattle.std.specs.Prelude.{◌≡◌, filter, length, nat_lt, take, IfOk};
ghost use Rattle.cad_run.specs.Pages.{examined_of};
ghost use Rattle.cad_run.specs.Slices.{rows_of};

use crate::feature_source::FeatureSource;
use crate::feature_test::FeatureTest;
use crate::kept::Kept;
use crate::rows::Page;
use std::alloc::{AllocError, Global};

/// The first features that pass, at most `limit` of them. It stops at the feature that shows that more are left. An error means
/// out of memory.
pub(crate) fn find<'a, S: FeatureSource<'a>, T: FeatureTest>(
    alloc: Global,
    source: S,
    test: &T,
    limit: usize,
) -> Result<Page<'a>, AllocError>
    ensures rows { IfOk result (λ page. rows_of page ≡ take limit (filter (T.passes test.now) (S.left source))) }
    ensures more { IfOk result (λ page. page.more ≡ nat_lt limit (length (filter (T.passes test.now) (S.left source)))) }
    ensures examined { IfOk result (λ page. page.examined ≡ examined_of (T.passes test.now) limit (S.left source)) }
{
    let mut kept = Kept::new(source);
    let mut rows = Vec::new(alloc);
    while let Some(feature) = kept.kept(test)? {
        if rows.len() == limit {
            return Ok(Page {
                rows,
                more: true,
                examined: kept.examined(),
            });
        }
        rows.push(feature)?;
    }
    Ok(Page {
        rows,
        more: false,
        examined: kept.examined(),
    })
}
