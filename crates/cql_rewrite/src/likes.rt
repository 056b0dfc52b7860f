//! The forms of LIKE.

ghost use Rattle.std.specs.Prelude.{◌≡◌, ◌≤◌, List, true, IfOk, IfSome, option_map};
ghost use Rattle.cad_feature.specs.Features.{datum_at};
ghost use Rattle.cad_feature.specs.Limits.{limit_of};
ghost use Rattle.cql_text.specs.Fronts.{IsLikeRange, front_of, text_of};
ghost use Rattle.cql_text.specs.Patterns.{pieces};
ghost use Rattle.cql_meaning.specs.Sides.{sides};
ghost use Rattle.cql_meaning.specs.Values.{text_in};
ghost use Rattle.cql_rewrite.specs.Atoms.{HasPlainAtoms, IsAtom};
ghost use Rattle.cql_rewrite.specs.Costs.{begun_by, least, least_or, like_bound};
ghost use Rattle.cql_rewrite.specs.Meets.{Written, in_side, is_liked, meets};
ghost use Rattle.cql_rewrite.specs.Terms.{end_limit, like_sides, met_or};

use crate::folded::atom;
use crate::form::Normal;
use crate::terms::copied;
use cad_range::{Edge, Range, Scalar};
use cql_meaning::constant_text;
use cql_text::{LikeRange, like_range};
use cql_types::{Filter, TextTerm};
use std::alloc::{AllocError, Global};

// The upper end of the range of a front.
fn high_edge(end: Option<String>) -> Edge
    ensures { limit_of result ≡ end_limit (option_map text_of end) }
{
    match end {
        Some(end) => Edge::Without(Scalar::Text(end)),
        None => Edge::Free,
    }
}

// The texts of a property that are like a pattern, if its front is not empty.
fn front_form<'a>(property: usize, pattern: String, range: LikeRange) -> Normal<'a>
    requires { IsLikeRange (text_of pattern) (text_of range.low) (option_map text_of range.end) range.is_exact }
    ensures stands { (x : Written) → meets x.item result ≡ is_liked (text_in (datum_at x.item property)) (text_of pattern) }
    ensures costs { (t : List Written) → least t result ≤ begun_by t property (text_of range.low) }
    ensures atoms { HasPlainAtoms result }
{
    let is_exact = range.is_exact;
    let range = Range {
        property,
        low: Edge::With(Scalar::Text(range.low)),
        high: high_edge(range.end),
    };
    if is_exact {
        Normal::Range(range)
    } else {
        Normal::Like { pattern, range }
    }
}

fn property_form<'a>(
    alloc: Global,
    property: usize,
    pattern: String,
) -> Result<Option<Normal<'a>>, AllocError>
    ensures stands { IfOk result (λ o. (x : Written) → met_or x.item o (is_liked (text_in (datum_at x.item property)) (text_of pattern)) ≡ is_liked (text_in (datum_at x.item property)) (text_of pattern)) }
    ensures costs { IfOk result (λ o. (t : List Written) → least_or t o ≤ begun_by t property (front_of (pieces (text_of pattern)))) }
    ensures atoms { IfOk result (λ o. IfSome o HasPlainAtoms) }
{
    let range = like_range(alloc, pattern.as_str())?;
    if range.low.is_empty() {
        return Ok(None);
    }
    Ok(Some(front_form(property, pattern, range)))
}

// The form of LIKE, if a property is compared with a pattern that has a front.
fn like_form<'a>(
    alloc: Global,
    value: &TextTerm,
    pattern: &TextTerm,
) -> Result<Option<Normal<'a>>, AllocError>
    ensures stands { IfOk result (λ o. (x : Written) → met_or x.item o (like_sides x.item value.now pattern.now).yes ≡ (like_sides x.item value.now pattern.now).yes) }
    ensures costs { IfOk result (λ o. (t : List Written) → least_or t o ≤ like_bound t value.now pattern.now) }
    ensures atoms { IfOk result (λ o. IfSome o HasPlainAtoms) }
{
    match (value, pattern) {
        (TextTerm::Property(property), TextTerm::Constant(pattern)) => {
            let pattern = copied(alloc, pattern)?;
            let form = property_form(alloc, *property, pattern)?;
            Ok(form)
        }
        (TextTerm::Property(property), TextTerm::Folded(_)) => {
            let known = constant_text(alloc, pattern)?;
            match known {
                Some(pattern) => {
                    let form = property_form(alloc, *property, pattern)?;
                    Ok(form)
                }
                None => Ok(None),
            }
        }
        _ => Ok(None),
    }
}

// The form of a LIKE that is true.
fn liked<'a>(
    alloc: Global,
    filter: &'a Filter,
    value: &TextTerm,
    pattern: &TextTerm,
) -> Result<Normal<'a>, AllocError>
    ensures stands { IfOk result (λ n. (x : Written) → sides x.item filter.now ≡ like_sides x.item value.now pattern.now → meets x.item n ≡ in_side true x.item filter.now) }
    ensures costs { IfOk result (λ n. (t : List Written) → least t n ≤ like_bound t value.now pattern.now) }
    ensures atoms { IfOk result (λ n. IsAtom filter.now → HasPlainAtoms n) }
{
    let form = like_form(alloc, value, pattern)?;
    match form {
        Some(form) => Ok(form),
        None => {
            let condition = atom(alloc, filter, true)?;
            Ok(condition)
        }
    }
}

/// The form of LIKE.
pub(crate) fn likeness<'a>(
    alloc: Global,
    filter: &'a Filter,
    value: &TextTerm,
    pattern: &TextTerm,
    side: bool,
) -> Result<Normal<'a>, AllocError>
    ensures stands { IfOk result (λ n. (x : Written) → sides x.item filter.now ≡ like_sides x.item value.now pattern.now → meets x.item n ≡ in_side side x.item filter.now) }
    ensures costs { IfOk result (λ n. side ≡ true → (t : List Written) → least t n ≤ like_bound t value.now pattern.now) }
    ensures atoms { IfOk result (λ n. IsAtom filter.now → HasPlainAtoms n) }
{
    if side {
        let form = liked(alloc, filter, value, pattern)?;
        Ok(form)
    } else {
        let condition = atom(alloc, filter, side)?;
        Ok(condition)
    }
}
