//! Whether a filter is true or false of a feature, or neither.

ghost use Rattle.std.specs.Prelude.{◌≡◌, false, map, IfOk, IsOk};
ghost use Rattle.cql_meaning.specs.Folding.{folds_case, folds_term, some};
ghost use Rattle.cql_meaning.specs.Said.{said};
ghost use Rattle.cql_meaning.specs.Sides.{conjunction as conjunction_of, disjunction as disjunction_of, is_null as is_null_of, sides};

use crate::flag::{compare_flags, flag, in_flags};
use crate::shape::{shape, spatial};
use crate::text::{compare_terms, in_texts, like_terms, text};
use crate::time::{compare_days, day, in_days, span, temporal};
use crate::verdict::{Truth, and, negation, or, truth_of};
use crate::whole::{between, compare_wholes, in_wholes, whole};
use cad_feature::Feature;
use cql_types::{AnyTerm, Filter};
use std::alloc::{AllocError, Global};

fn is_null(alloc: Global, term: &AnyTerm, feature: &Feature) -> Result<bool, AllocError>
    ensures value { IfOk result (λ null. null ≡ is_null_of feature.now term.now) }
    ensures lent { folds_term term.now ≡ false → IsOk result }
{
    match term {
        AnyTerm::Whole(term) => Ok(whole(term, feature).is_none()),
        AnyTerm::Text(term) => Ok(text(alloc, term, feature)?.is_none()),
        AnyTerm::Day(term) => Ok(day(term, feature).is_none()),
        AnyTerm::Flag(term) => Ok(flag(term, feature).is_none()),
        AnyTerm::Span(term) => Ok(span(term, feature).is_none()),
        AnyTerm::Shape(term) => Ok(shape(term, feature).is_none()),
    }
}

/// What the filter says of the feature. An error means out of memory. Memory is taken only for texts whose case is folded: a filter
/// without CASEI is always answered.
#[cycle(truth)]
pub fn truth(alloc: Global, filter: &Filter, feature: &Feature) -> Result<Truth, AllocError>
    ensures said { IfOk result (λ t. said t ≡ sides feature.now filter.now) }
    ensures answers { folds_case filter.now ≡ false → IsOk result }
{
    match filter {
        Filter::Truth(is_true) => Ok(truth_of(Some(*is_true))),
        Filter::CompareWhole { by, left, right } => {
            Ok(compare_wholes(*by, whole(left, feature), whole(right, feature)))
        }
        Filter::CompareText { by, left, right } => {
            compare_terms(alloc, *by, left, right, feature)
        }
        Filter::CompareDay { by, left, right } => {
            Ok(compare_days(*by, day(left, feature), day(right, feature)))
        }
        Filter::CompareFlag { by, left, right } => {
            Ok(compare_flags(*by, flag(left, feature), flag(right, feature)))
        }
        Filter::Like { value, pattern } => like_terms(alloc, value, pattern, feature),
        Filter::Between { value, low, high } => {
            Ok(between(
                whole(value, feature),
                whole(low, feature),
                whole(high, feature),
            ))
        }
        Filter::InWhole { value, items } => Ok(in_wholes(whole(value, feature), items, feature)),
        Filter::InText { value, items } => {
            let value = text(alloc, value, feature)?;
            in_texts(alloc, &value, items, feature)
        }
        Filter::InDay { value, items } => Ok(in_days(day(value, feature), items, feature)),
        Filter::InFlag { value, items } => Ok(in_flags(flag(value, feature), items, feature)),
        Filter::IsNull(term) => Ok(truth_of(Some(is_null(alloc, term, feature)?))),
        Filter::Spatial { by, left, right } => {
            Ok(spatial(*by, shape(left, feature), shape(right, feature)))
        }
        Filter::Temporal { by, left, right } => {
            Ok(temporal(*by, span(left, feature), span(right, feature)))
        }
        Filter::Not(part) => Ok(negation(truth(alloc, part, feature)?)),
        Filter::And(parts) => conjunction(alloc, parts, feature),
        Filter::Or(parts) => disjunction(alloc, parts, feature),
    }
}

#[cycle(truth)]
fn conjunction(alloc: Global, parts: &[Filter], feature: &Feature) -> Result<Truth, AllocError>
    ensures said { IfOk result (λ t. said t ≡ conjunction_of (map (sides feature.now) parts.now)) }
    ensures answers { some (map folds_case parts.now) ≡ false → IsOk result }
{
    let mut all = Truth::Yes;
    for part in parts {
        all = and(all, truth(alloc, part, feature)?);
    }
    Ok(all)
}

#[cycle(truth)]
fn disjunction(alloc: Global, parts: &[Filter], feature: &Feature) -> Result<Truth, AllocError>
    ensures said { IfOk result (λ t. said t ≡ disjunction_of (map (sides feature.now) parts.now)) }
    ensures answers { some (map folds_case parts.now) ≡ false → IsOk result }
{
    let mut some = Truth::No;
    for part in parts {
        some = or(some, truth(alloc, part, feature)?);
    }
    Ok(some)
}
