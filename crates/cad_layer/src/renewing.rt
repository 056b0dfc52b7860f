//! Segments over new bases.

ghost use Rattle.std.specs.Prelude.{◌≡◌, IfOk};
ghost use Rattle.cad_layer.specs.Segments.{joined};

use crate::Segment;
use crate::merging::push_all;
use cad_feature::Feature;
use std::alloc::{AllocError, Global};

/// How many changes all segments have.
pub(crate) fn change_count(segments: &[Segment]) -> usize {
    let mut count: usize = 0;
    for segment in segments {
        count = count.saturating_add(segment.change_count());
    }
    count
}

/// The segment with the most changes.
#[derive(Clone, Copy)]
pub(crate) struct Fullest {
    /// Its place among the segments.
    pub(crate) at: usize,
    /// How many changes it has.
    pub(crate) changes: usize,
}

/// The first of the segments that have the most changes.
pub(crate) fn fullest_of(segments: &[Segment]) -> Fullest {
    let mut fullest = Fullest { at: 0, changes: 0 };
    for (at, segment) in segments.iter().enumerate() {
        let changes = segment.change_count();
        if fullest.changes < changes {
            fullest = Fullest { at, changes };
        }
    }
    fullest
}

/// How many features the largest base has.
pub(crate) fn greatest_base(segments: &[Segment]) -> usize {
    let mut greatest = 0;
    for segment in segments {
        greatest = segment.base_count().max(greatest);
    }
    greatest
}

/// Which segments get new bases: the one at a place, and those that have many changes.
#[derive(Clone, Copy)]
pub(crate) struct Due {
    pub(crate) at: usize,
    /// More changes than this are many.
    pub(crate) many: usize,
}

impl Due {
    /// Whether the segment at the place is one of them.
    fn holds(self, place: usize, segment: &Segment) -> bool {
        place == self.at || self.many < segment.change_count()
    }
}

/// The same segments, with new bases for those that are due. An error means out of memory.
pub(crate) fn renewed(
    alloc: Global,
    segments: &[Segment],
    due: Due,
) -> Result<Vec<Segment>, AllocError>
    ensures { IfOk result (λ all. all.items ≡ segments.now) }
{
    let mut all = Vec::with_capacity(alloc, segments.len())?;
    for (place, segment) in segments.iter().enumerate() {
        let segment = if due.holds(place, segment) {
            segment.rebased(alloc)?
        } else {
            segment.copy()?
        };
        all.push(segment)?;
    }
    Ok(all)
}

/// The features of all segments, by copies. An error means out of memory.
pub(crate) fn all_features(alloc: Global, segments: &[Segment]) -> Result<Vec<Feature>, AllocError>
    ensures { IfOk result (λ all. all.items ≡ joined segments.now) }
{
    let mut all = Vec::new(alloc);
    let mut rest = segments;
    while let Some((segment, behind)) = rest.split_first() {
        push_all(alloc, &mut all, segment.walk())?;
        rest = behind;
    }
    Ok(all)
}
