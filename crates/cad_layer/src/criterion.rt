//! Criteria by which features are counted.

ghost use Rattle.std.specs.Prelude.{◌≡◌, Bool, false, filter, length, option_map};
ghost use Rattle.cad_feature.specs.Features.{Item};
ghost use Rattle.cad_grid.specs.Blocks.{block_of};
ghost use Rattle.cad_grid.specs.Counted.{block_at};
ghost use Rattle.cad_grid.specs.Near.{is_candidate};
ghost use Rattle.cad_extents.specs.Extents.{IsWithin};
ghost use Rattle.cad_index.specs.Moments.{rows_at};

use cad_extents::Extents;
use cad_feature::{Feature, Range};
use cad_grid::{Cells, bounds_of};
use cad_index::Base;
use cad_range::lies_in;
use cad_shape::Bounds;

/// A criterion that a feature meets or does not meet.
pub(crate) trait Criterion {
    /// Whether a feature meets it.
    ghost passes: { Self → Item → Bool };

    /// Whether the feature meets it.
    fn is_met_by(&self, feature: &Feature) -> bool
        ensures { result ≡ passes self.now feature.now };

    /// Whether one of the features with these extents may meet it.
    fn may_be_met_in(&self, extents: &Extents) -> bool
        ensures { result ≡ false → (x : Item) → IsWithin extents.now x → passes self.now x ≡ false };

    /// How many features of the base meet it, by an index of the base.
    fn count_in(&self, base: &Base) -> u64
        ensures { result ≡ length (filter (passes self.now) base.now.features) };
}

/// A criterion by which the features at a revision are counted, too.
pub(crate) trait CriterionAt: Criterion {
    /// How many features of the base that have their values at the revision meet it. No memory is taken.
    fn count_in_at(&self, base: &Base, revision: u64) -> u64
        ensures { result ≡ length (filter (Self.passes self.now) (rows_at revision base.now.features)) };
}

/// Each feature meets it.
#[derive(Clone, Copy)]
pub(crate) struct AnyFeature;

impl Criterion for AnyFeature {
    ghost use Rattle.std.specs.Prelude.{true};

    ghost passes = { λ t x. true };

    fn is_met_by(&self, _feature: &Feature) -> bool {
        true
    }

    fn may_be_met_in(&self, _extents: &Extents) -> bool {
        true
    }

    fn count_in(&self, base: &Base) -> u64 {
        base.features().len() as u64
    }
}

impl CriterionAt for AnyFeature {
    fn count_in_at(&self, base: &Base, revision: u64) -> u64 {
        base.count_at(revision)
    }
}

/// A value in the range.
#[derive(Clone, Copy)]
pub(crate) struct InRange<'a> {
    pub(crate) range: &'a Range,
}

impl Criterion for InRange<'_> {
    ghost use Rattle.cad_range.specs.Ranges.{lies_in as lies_in_of};

    ghost passes = { λ t x. lies_in_of x t.range.now };

    fn is_met_by(&self, feature: &Feature) -> bool {
        lies_in(self.range, feature)
    }

    fn may_be_met_in(&self, extents: &Extents) -> bool {
        extents.may_lie_in(self.range)
    }

    fn count_in(&self, base: &Base) -> u64 {
        base.count_in(self.range)
    }
}

impl CriterionAt for InRange<'_> {
    fn count_in_at(&self, base: &Base, revision: u64) -> u64 {
        base.count_in_at(self.range, revision)
    }
}

/// A shape of the property near the cells of a box.
#[derive(Clone, Copy)]
pub(crate) struct NearCells {
    property: usize,
    bounds: Bounds,
    asked: Cells,
    ghost same: { block_at asked ≡ block_of bounds },
}

impl NearCells {
    ghost use Rattle.std.specs.Prelude.{◌≡◌};
    ghost use Rattle.cad_grid.specs.Blocks.{block_of};
    ghost use Rattle.cad_grid.specs.Counted.{block_at};

    /// The criterion of being near the box.
    pub(crate) fn to(property: usize, bounds: Bounds) -> NearCells
        ensures property { result.property ≡ property }
        ensures bounds { result.bounds ≡ bounds }
    {
        NearCells {
            property,
            bounds,
            asked: Cells::of(bounds),
        }
    }
}

/// Whether a shape with that box is near the cells.
fn is_near(asked: Cells, bounds: Option<Bounds>) -> bool
    ensures { result ≡ is_candidate (block_at asked) (option_map block_of bounds) }
{
    match bounds {
        None => false,
        Some(bounds) => {
            let own = Cells::of(bounds);
            own.is_wide() || own.share_a_cell(asked)
        }
    }
}

impl Criterion for NearCells {
    ghost use Rattle.cad_grid.specs.Blocks.{block_of};
    ghost use Rattle.cad_grid.specs.Near.{is_near as is_near_of};

    ghost passes = { λ t. is_near_of t.property (block_of t.bounds) };

    fn is_met_by(&self, feature: &Feature) -> bool {
        if self.property < feature.values.len() {
            is_near(self.asked, bounds_of(&feature.values[self.property]))
        } else {
            false
        }
    }

    fn may_be_met_in(&self, extents: &Extents) -> bool {
        extents.may_be_near(self.property, self.asked)
    }

    fn count_in(&self, base: &Base) -> u64 {
        base.count_near(self.property, self.bounds)
    }
}

impl CriterionAt for NearCells {
    fn count_in_at(&self, base: &Base, revision: u64) -> u64 {
        base.count_near_at(self.property, self.bounds, revision)
    }
}
