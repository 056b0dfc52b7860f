//! How many features of segments meet a criterion.

ghost use Rattle.std.specs.Prelude.{◌≡◌, ◌≤◌, IfSome, length};
ghost use Rattle.cad_lookup.specs.Ways.{how_many};
ghost use Rattle.cad_index.specs.Moments.{rows_at};
ghost use Rattle.cad_layer.specs.Segments.{joined};

use crate::Segment;
use crate::criterion::{Criterion, CriterionAt};
use crate::moment::AtRevision;

/// How many features of all segments meet the criterion; the segments have at most `most` features. No memory is taken.
pub(crate) fn count_all<T: Criterion>(segments: &[Segment], criterion: &T, most: u64) -> u64
    requires { length (joined segments.now) ≤ most }
    ensures { result ≡ how_many (T.passes criterion.now) (joined segments.now) }
{
    let mut count = 0;
    let mut rest = segments;
    while let Some((segment, behind)) = rest.split_first() {
        count += segment.count_meeting(criterion);
        rest = behind;
    }
    count
}

/// How many features of all segments that have their values at the revision meet the criterion; the segments have at most `most`
/// features. No memory is taken.
pub(crate) fn count_all_at<T: CriterionAt>(
    segments: &[Segment],
    criterion: &T,
    revision: u64,
    most: u64,
) -> u64
    requires { length (joined segments.now) ≤ most }
    ensures { result ≡ how_many (T.passes criterion.now) (rows_at revision (joined segments.now)) }
{
    let shown = AtRevision {
        criterion,
        revision,
    };
    count_all(segments, &shown, most)
}

/// How many features all segments have, if a counter holds it.
pub(crate) fn length_of_all(segments: &[Segment]) -> Option<u64>
    ensures { IfSome result (λ count. count ≡ length (joined segments.now)) }
{
    let mut count: u64 = 0;
    let mut rest = segments;
    while let Some((segment, behind)) = rest.split_first() {
        count = count.checked_add(segment.count())?;
        rest = behind;
    }
    Some(count)
}
