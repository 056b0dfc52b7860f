//! Whether a feature has a value inside a range. No memory is taken.

ghost use Rattle.std.specs.Prelude.{◌≡◌};
ghost use Rattle.cad_feature.specs.Limits.{limit_of};
ghost use Rattle.cad_feature.specs.Values.{datum_of};
ghost use Rattle.cad_range.specs.Ranges.{is_above as is_above_of, is_under as is_under_of, lies_between as lies_between_of, lies_in as lies_in_of};

use crate::ordering::HasOrder;
use cad_feature::{Edge, Feature, Range, Value};

fn is_above<V: HasOrder>(low: &Edge, value: &V) -> bool
    ensures { result ≡ is_above_of (limit_of low.now) (V.datum value.now) }
{
    match low {
        Edge::Free => true,
        Edge::With(scalar) => match value.against(scalar) {
            Some(order) => order.is_ge(),
            None => false,
        },
        Edge::Without(scalar) => match value.against(scalar) {
            Some(order) => order.is_gt(),
            None => false,
        },
    }
}

fn is_under<V: HasOrder>(high: &Edge, value: &V) -> bool
    ensures { result ≡ is_under_of (limit_of high.now) (V.datum value.now) }
{
    match high {
        Edge::Free => true,
        Edge::With(scalar) => match value.against(scalar) {
            Some(order) => order.is_le(),
            None => false,
        },
        Edge::Without(scalar) => match value.against(scalar) {
            Some(order) => order.is_lt(),
            None => false,
        },
    }
}

fn is_between<V: HasOrder>(low: &Edge, high: &Edge, value: &V) -> bool
    ensures { result ≡ lies_between_of (limit_of low.now) (limit_of high.now) (V.datum value.now) }
{
    is_above(low, value) && is_under(high, value)
}

// The kind of the value is looked at once, and then each end by that kind.
fn lies_between(low: &Edge, high: &Edge, value: &Value) -> bool
    ensures { result ≡ lies_between_of (limit_of low.now) (limit_of high.now) (datum_of value.now) }
{
    match value {
        Value::Text(text) => is_between(low, high, text.as_ref()),
        Value::Whole(number) => is_between(low, high, number),
        Value::Day(day) => is_between(low, high, day),
        _ => false,
    }
}

/// Whether the feature has a value of the range's property that lies between its ends.
pub fn lies_in(range: &Range, feature: &Feature) -> bool
    ensures { result ≡ lies_in_of feature.now range.now }
{
    if range.property < feature.values.len() {
        lies_between(&range.low, &range.high, &feature.values[range.property])
    } else {
        false
    }
}
