//! Days and intervals.

ghost use Rattle.std.specs.Prelude.{◌≡◌};
ghost use Rattle.cad_day.specs.Relations.{holds as holds_of};
ghost use Rattle.cad_day.specs.Intervals.{interval_of};
ghost use Rattle.cql_meaning.specs.Said.{said};
ghost use Rattle.cql_meaning.specs.Sides.{among, compared, days};
ghost use Rattle.cql_meaning.specs.Values.{day_value, end_value, span_value};
ghost use Rattle.cql_lexer.specs.declared.token.Comparison.TheVariants.{Equal};

use crate::comparison::stands;
use crate::verdict::{Truth, or, truth_of};
use cad_day::{Day, Interval, Relation, holds};
use cad_feature::Feature;
use cql_lexer::Comparison;
use cql_types::{DayTerm, EndTerm, SpanTerm};

/// The value of a term on a feature, if it has one.
pub(crate) fn day(term: &DayTerm, feature: &Feature) -> Option<Day>
    ensures { result ≡ day_value feature.now term.now }
{
    match term {
        DayTerm::Constant(day) => Some(*day),
        DayTerm::Property(place) => feature.value(*place)?.as_day(),
    }
}

pub(crate) fn compare_days(by: Comparison, left: Option<Day>, right: Option<Day>) -> Truth
    ensures { said result ≡ compared (days by) left right }
{
    match (left, right) {
        (Some(a), Some(b)) => truth_of(Some(stands(by, a.number().cmp(&b.number())))),
        (None, _) | (_, None) => Truth::Unknown,
    }
}

pub(crate) fn in_days(value: Option<Day>, items: &[DayTerm], feature: &Feature) -> Truth
    ensures { said result ≡ among (days Equal) (day_value feature.now) value items.now }
{
    let mut found = Truth::No;
    for item in items {
        found = or(
            found,
            compare_days(Comparison::Equal, value, day(item, feature)),
        );
    }
    found
}

// The interval with these ends, if they are not turned round.
fn interval(from: Option<Day>, to: Option<Day>) -> Option<Interval>
    ensures { result ≡ interval_of from to }
{
    Interval::new(from, to)
}

// An end of an interval on a feature, if it has one: an open end is `Some(None)`.
fn end(term: &EndTerm, feature: &Feature) -> Option<Option<Day>>
    ensures { result ≡ end_value feature.now term.now }
{
    match term {
        EndTerm::Open => Some(None),
        EndTerm::Day(term) => match day(term, feature) {
            Some(day) => Some(Some(day)),
            None => None,
        },
    }
}

/// The value of a term on a feature, if it has one.
pub(crate) fn span(term: &SpanTerm, feature: &Feature) -> Option<Interval>
    ensures { result ≡ span_value feature.now term.now }
{
    match term {
        SpanTerm::Day(term) => {
            let day = day(term, feature)?;
            interval(Some(day), Some(day))
        }
        SpanTerm::Property(place) => feature.value(*place)?.as_span(),
        SpanTerm::Interval { from, to } => {
            let from = end(from, feature)?;
            let to = end(to, feature)?;
            interval(from, to)
        }
    }
}

pub(crate) fn temporal(by: Relation, left: Option<Interval>, right: Option<Interval>) -> Truth
    ensures { said result ≡ compared (holds_of by) left right }
{
    match (left, right) {
        (Some(a), Some(b)) => truth_of(Some(holds(by, a, b))),
        (None, _) | (_, None) => Truth::Unknown,
    }
}
