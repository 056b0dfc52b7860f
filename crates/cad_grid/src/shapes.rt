//! Values that are shapes.

ghost use Rattle.std.specs.Prelude.{◌≡◌, option_map};
ghost use Rattle.cad_feature.specs.Values.{datum_of};
ghost use Rattle.cad_grid.specs.Blocks.{block_of};
ghost use Rattle.cad_grid.specs.Near.{block_in};

use cad_feature::Value;
use cad_shape::Bounds;

/// The least box around the value, if it is a shape.
#[tactic(auto, using(crate::specs::lemmas::CornerLemmas::same_block))]
pub fn bounds_of(value: &Value) -> Option<Bounds>
    ensures { option_map block_of result ≡ block_in (datum_of value.now) }
{
    match value {
        Value::Spot(point) => Some(Bounds::at(**point)),
        Value::Area(region) => Some(region.bounds()),
        _ => None,
    }
}
