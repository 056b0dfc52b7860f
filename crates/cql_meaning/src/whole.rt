//! Whole numbers.

ghost use Rattle.std.specs.Prelude.{◌≡◌};
ghost use Rattle.cql_meaning.specs.Arithmetic.{computed as computed_of, made as made_of, whole_value};
ghost use Rattle.cql_meaning.specs.Said.{said};
ghost use Rattle.cql_meaning.specs.Sides.{among, between as between_of, compared, wholes};
ghost use Rattle.cql_lexer.specs.declared.token.Comparison.TheVariants.{Equal};

use crate::comparison::stands;
use crate::verdict::{Truth, and, or, truth_of};
use cad_feature::Feature;
use cql_lexer::Comparison;
use cql_types::{Operation, WholeTerm};

// One step of a sum or a product, if its result has 64 bits.
fn computed(by: Operation, left: i64, right: i64) -> Option<i64>
    ensures { result ≡ computed_of by left right }
{
    match by {
        Operation::Plus => left.checked_add(right),
        Operation::Minus => left.checked_sub(right),
        Operation::Times => left.checked_mul(right),
        Operation::Div => left.checked_div(right),
        Operation::Modulo => {
            if right == 0 {
                None
            } else {
                Some(left.wrapping_rem(right))
            }
        }
    }
}

// What a part of a sum or a product with this value makes of the value before it.
pub(crate) fn made(by: Operation, part: Option<i64>, value: Option<i64>) -> Option<i64>
    ensures { result ≡ made_of by part value }
{
    computed(by, value?, part?)
}

/// The value of a term on a feature, if it has one.
pub(crate) fn whole(term: &WholeTerm, feature: &Feature) -> Option<i64>
    ensures { result ≡ whole_value feature.now term.now }
{
    match term {
        WholeTerm::Constant(number) => Some(*number),
        WholeTerm::Property(place) => feature.value(*place)?.as_whole(),
        WholeTerm::Computed { first, steps } => {
            let mut value = whole(first, feature);
            for step in steps {
                value = made(step.by, whole(&step.term, feature), value);
            }
            value
        }
    }
}

pub(crate) fn compare_wholes(by: Comparison, left: Option<i64>, right: Option<i64>) -> Truth
    ensures { said result ≡ compared (wholes by) left right }
{
    match (left, right) {
        (Some(a), Some(b)) => truth_of(Some(stands(by, a.cmp(&b)))),
        (None, _) | (_, None) => Truth::Unknown,
    }
}

pub(crate) fn between(value: Option<i64>, low: Option<i64>, high: Option<i64>) -> Truth
    ensures { said result ≡ between_of value low high }
{
    and(
        compare_wholes(Comparison::AtLeast, value, low),
        compare_wholes(Comparison::AtMost, value, high),
    )
}

pub(crate) fn in_wholes(value: Option<i64>, items: &[WholeTerm], feature: &Feature) -> Truth
    ensures { said result ≡ among (wholes Equal) (whole_value feature.now) value items.now }
{
    let mut found = Truth::No;
    for item in items {
        found = or(
            found,
            compare_wholes(Comparison::Equal, value, whole(item, feature)),
        );
    }
    found
}
