//! True and false as values.

ghost use Rattle.std.specs.Prelude.{◌≡◌};
ghost use Rattle.cad_feature.specs.Values.{datum_of};
ghost use Rattle.cql_meaning.specs.Said.{said};
ghost use Rattle.cql_meaning.specs.Sides.{among, compared, flags};
ghost use Rattle.cql_meaning.specs.Values.{flag_in as flag_in_of, flag_value};
ghost use Rattle.cql_lexer.specs.declared.token.Comparison.TheVariants.{Equal};

use crate::comparison::stands;
use crate::verdict::{Truth, or, truth_of};
use cad_feature::{Feature, Value};
use cql_lexer::Comparison;
use cql_types::FlagTerm;

fn flag_in(value: &Value) -> Option<bool>
    ensures { result ≡ flag_in_of (datum_of value.now) }
{
    match value {
        Value::Flag(flag) => Some(*flag),
        _ => None,
    }
}

/// The value of a term on a feature, if it has one.
pub(crate) fn flag(term: &FlagTerm, feature: &Feature) -> Option<bool>
    ensures { result ≡ flag_value feature.now term.now }
{
    match term {
        FlagTerm::Constant(flag) => Some(*flag),
        FlagTerm::Property(place) => flag_in(feature.value(*place)?),
    }
}

pub(crate) fn compare_flags(by: Comparison, left: Option<bool>, right: Option<bool>) -> Truth
    ensures { said result ≡ compared (flags by) left right }
{
    match (left, right) {
        (Some(a), Some(b)) => truth_of(Some(stands(by, a.cmp(&b)))),
        (None, _) | (_, None) => Truth::Unknown,
    }
}

pub(crate) fn in_flags(value: Option<bool>, items: &[FlagTerm], feature: &Feature) -> Truth
    ensures { said result ≡ among (flags Equal) (flag_value feature.now) value items.now }
{
    let mut found = Truth::No;
    for item in items {
        found = or(
            found,
            compare_flags(Comparison::Equal, value, flag(item, feature)),
        );
    }
    found
}
