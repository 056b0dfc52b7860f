//! How many features there are at a revision.

ghost use Rattle.std.specs.Prelude.{◌≡◌, Some};
ghost use Rattle.cad_lookup.specs.Ways.{how_many};
ghost use Rattle.cad_history.specs.Lent.{AreInTurn, features_lent};
ghost use Rattle.cad_history.specs.Rows.{rows_at};
ghost use Rattle.cad_history.specs.inner.Counted.{is_counted};

use crate::Past;
use cad_feature::Range;
use cad_layer::Layer;
use cad_shape::Bounds;

/// Which of the features at a revision are counted.
#[derive(Clone, Copy)]
pub(crate) enum Counted<'a> {
    /// All of them.
    Every,
    /// Those with a value in the range.
    InRange(&'a Range),
    /// Those with a shape of the property near the box.
    Near { property: usize, bounds: Bounds },
}

/// How many of the layer's rows that have their values at the revision are counted. No memory is taken.
fn count_rows(layer: &Layer, counted: Counted<'_>, revision: u64) -> u64
    ensures { result ≡ how_many (is_counted counted.entry) (rows_at revision layer.now.features) }
{
    match counted {
        Counted::Every => layer.count_at(revision),
        Counted::InRange(range) => layer.count_in_at(range, revision),
        Counted::Near { property, bounds } => layer.count_near_at(property, bounds, revision),
    }
}

/// How many of the features at the revision are counted. No memory is taken.
pub(crate) fn count_lent(newest: &Layer, past: Past<'_>, counted: Counted<'_>) -> u64
    requires { AreInTurn newest.now past.earlier.now }
    ensures { result ≡ how_many (is_counted counted.entry) (features_lent newest.now.features (Some past.entry)) }
{
    // The newest rows ascend.
    let _collection = newest.collection();
    let mut count = count_rows(newest, counted, past.revision);
    let mut rest = past.earlier;
    while let Some((layer, behind)) = rest.split_first() {
        count += count_rows(layer, counted, past.revision);
        rest = behind;
    }
    count
}
