//! Ranges of one property, joined.

ghost use Rattle.std.specs.Prelude.{◌≡◌, ◌&&◌, false, IsTrue};
ghost use Rattle.std.specs.Ordering.{is_ge, is_gt};
ghost use Rattle.cad_feature.specs.Features.{Item, datum_at};
ghost use Rattle.cad_feature.specs.Limits.{limit_of, scalar_datum};
ghost use Rattle.cad_feature.specs.Values.{Datum};
ghost use Rattle.cad_range.specs.Ranges.{chosen_of, compared, holds_of, is_above, is_under, lies_between, lies_in, lies_in_if_any, picked};

use crate::ordering::order;
use cad_feature::{Edge, Range, Scalar};

// Whether the second of two lower ends is the one that decides, if they are of one kind.
fn is_second_above(first: &Edge, second: &Edge) -> Option<bool>
    ensures { (d : Datum) → picked result (is_above (limit_of first.now) d) (is_above (limit_of second.now) d) ≡ (is_above (limit_of first.now) d && is_above (limit_of second.now) d) }
{
    match (first, second) {
        (Edge::Free, _) => Some(true),
        (_, Edge::Free) => Some(false),
        (Edge::Without(a), Edge::With(b)) => Some(order(a, b)?.is_lt()),
        (Edge::With(a), Edge::With(b)) => Some(order(a, b)?.is_le()),
        (Edge::With(a), Edge::Without(b)) => Some(order(a, b)?.is_le()),
        (Edge::Without(a), Edge::Without(b)) => Some(order(a, b)?.is_le()),
    }
}

// The same for two upper ends.
fn is_second_under(first: &Edge, second: &Edge) -> Option<bool>
    ensures { (d : Datum) → picked result (is_under (limit_of first.now) d) (is_under (limit_of second.now) d) ≡ (is_under (limit_of first.now) d && is_under (limit_of second.now) d) }
{
    match (first, second) {
        (Edge::Free, _) => Some(true),
        (_, Edge::Free) => Some(false),
        (Edge::Without(a), Edge::With(b)) => Some(order(a, b)?.is_gt()),
        (Edge::With(a), Edge::With(b)) => Some(order(a, b)?.is_ge()),
        (Edge::With(a), Edge::Without(b)) => Some(order(a, b)?.is_ge()),
        (Edge::Without(a), Edge::Without(b)) => Some(order(a, b)?.is_ge()),
    }
}

fn chosen(first: Edge, second: Edge, is_second: bool) -> Edge
    ensures { result ≡ chosen_of is_second first second }
{
    if is_second { second } else { first }
}

// Whether no value lies between the ends: the lower one lies above the other, or they are one value that is not inside.
fn is_turned(low: &Edge, high: &Edge) -> bool
    ensures { IsTrue result → (d : Datum) → lies_between (limit_of low.now) (limit_of high.now) d ≡ false }
{
    match (low, high) {
        (Edge::Free, _) | (_, Edge::Free) => false,
        (Edge::With(a), Edge::With(b)) => is_after(a, b),
        (Edge::With(a), Edge::Without(b)) => is_not_before(a, b),
        (Edge::Without(a), Edge::With(b)) => is_not_before(a, b),
        (Edge::Without(a), Edge::Without(b)) => is_not_before(a, b),
    }
}

fn is_after(a: &Scalar, b: &Scalar) -> bool
    ensures { result ≡ holds_of is_gt (compared (scalar_datum a.now) (scalar_datum b.now)) }
{
    match order(a, b) {
        Some(order) => order.is_gt(),
        None => false,
    }
}

fn is_not_before(a: &Scalar, b: &Scalar) -> bool
    ensures { result ≡ holds_of is_ge (compared (scalar_datum a.now) (scalar_datum b.now)) }
{
    match order(a, b) {
        Some(order) => order.is_ge(),
        None => false,
    }
}

/// The range from one end to the other, or none if they are turned round.
pub fn range_between(property: usize, low: Edge, high: Edge) -> Option<Range>
    ensures { (x : Item) → lies_in_if_any x result ≡ lies_between (limit_of low) (limit_of high) (datum_at x property) }
{
    if is_turned(&low, &high) {
        return None;
    }
    Some(Range {
        property,
        low,
        high,
    })
}

/// The values that lie in both of two ranges of one property, or none if no value does.
pub fn joined(first: Range, second: Range) -> Option<Range>
    requires { first.property ≡ second.property }
    ensures { (x : Item) → lies_in_if_any x result ≡ (lies_in x first && lies_in x second) }
{
    let low = is_second_above(&first.low, &second.low)?;
    let high = is_second_under(&first.high, &second.high)?;
    range_between(
        first.property,
        chosen(first.low, second.low, low),
        chosen(first.high, second.high, high),
    )
}
