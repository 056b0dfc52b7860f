//! How many of the features at some positions have their values at a revision.

ghost use Rattle.std.specs.Prelude.{◌≡◌, filter, length};
ghost use Rattle.cad_index.specs.inner.Periods.{is_shown_in};

use cad_feature::Feature;
use cad_grid::PositionTest;

/// Whether there is a feature at the position, with its values at the revision.
fn is_shown(features: &[Feature], position: u32, revision: u64) -> bool
    ensures { result ≡ is_shown_in features.now revision position }
{
    match features.get(position as usize) {
        None => false,
        Some(feature) => feature.period.contains(revision),
    }
}

/// The test that keeps the positions of features that have their values at the revision.
#[derive(Clone, Copy)]
pub(crate) struct ShownAt<'a> {
    pub(crate) features: &'a [Feature],
    pub(crate) revision: u64,
}

impl PositionTest for ShownAt<'_> {
    ghost use Rattle.cad_index.specs.inner.Periods.{is_shown_in};

    ghost passes = { λ t. is_shown_in t.features.now t.revision };

    fn test(&self, position: u32) -> bool {
        is_shown(self.features, position, self.revision)
    }
}

/// How many of the positions are those of features that have their values at the revision.
pub(crate) fn count_shown(features: &[Feature], positions: &[u32], revision: u64) -> u64
    ensures { result ≡ length (filter (is_shown_in features.now revision) positions.now) }
{
    positions
        .iter()
        .filter(|position| is_shown(features, **position, revision))
        .count() as u64
}
