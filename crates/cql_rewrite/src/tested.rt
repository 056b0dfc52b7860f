//! Whether a feature meets a normal form.

ghost use Rattle.std.specs.Prelude.{◌≡◌, ◌&&◌, true, false, chars, IfOk, IsOk, Some};
ghost use Rattle.std.specs.List.{list_all, list_any};
ghost use Rattle.cad_shape.specs.Shapes.{shape_corners};
ghost use Rattle.cad_grid.specs.Blocks.{block_around};
ghost use Rattle.cad_grid.specs.Counted.{block_at};
ghost use Rattle.cad_grid.specs.Near.{block_in, is_candidate, is_near as is_near_of};
ghost use Rattle.cad_feature.specs.Features.{datum_at};
ghost use Rattle.cad_feature.specs.Values.{datum_of};
ghost use Rattle.cql_text.specs.Fronts.{text_of};
ghost use Rattle.cql_meaning.specs.Folding.{folds_case};
ghost use Rattle.cql_meaning.specs.Values.{text_in};
ghost use Rattle.cql_rewrite.specs.Meets.{folds, in_side, is_folded_to, is_liked as is_liked_of, is_liked_folded as is_liked_folded_of, meets};

use crate::form::Normal;
use cad_feature::{Feature, FoldedPattern, FoldedText, Value};
use cad_grid::{Cells, bounds_of};
use cad_range::lies_in;
use cad_shape::{Shape, bounds};
use cql_meaning::{Truth, truth};
use cql_text::{compare_folded, like, like_folded};
use cql_types::Filter;
use std::alloc::{AllocError, Global};

// Whether the filter is true of the feature, or false of it.
fn is_said(
    alloc: Global,
    filter: &Filter,
    side: bool,
    feature: &Feature,
) -> Result<bool, AllocError>
    ensures said { IfOk result (λ b. b ≡ in_side side feature.now filter.now) }
    ensures answers { folds_case filter.now ≡ false → IsOk result }
{
    let said = truth(alloc, filter, feature)?;
    Ok(match said {
        Truth::Yes => side,
        Truth::No => !side,
        Truth::Unknown => false,
    })
}

fn is_liked(value: &Value, pattern: &str) -> bool
    ensures { result ≡ is_liked_of (text_in (datum_of value.now)) (chars pattern.now) }
{
    match value {
        Value::Text(text) => like(text.as_ref().as_str(), pattern),
        _ => false,
    }
}

fn is_liked_at(feature: &Feature, property: usize, pattern: &String) -> bool
    ensures { result ≡ is_liked_of (text_in (datum_at feature.now property)) (text_of pattern.now) }
{
    if property < feature.values.len() {
        is_liked(&feature.values[property], pattern.as_str())
    } else {
        false
    }
}

fn is_folded(value: &Value, text: &str) -> bool
    ensures { result ≡ is_folded_to (text_in (datum_of value.now)) (chars text.now) }
{
    match value {
        Value::Text(own) => compare_folded(own.as_ref().as_str(), text).is_eq(),
        _ => false,
    }
}

fn is_folded_at(feature: &Feature, text: &FoldedText) -> bool
    ensures { result ≡ is_folded_to (text_in (datum_at feature.now text.now.property)) text.now.text }
{
    let property = text.property();
    if property < feature.values.len() {
        is_folded(&feature.values[property], text.as_str())
    } else {
        false
    }
}

// The marks are compared first: of most features no text is looked at.
fn has_folded(feature: &Feature, text: &FoldedText) -> bool
    ensures { result ≡ is_folded_to (text_in (datum_at feature.now text.now.property)) text.now.text }
{
    feature.may_fold_to(text) && is_folded_at(feature, text)
}

fn is_liked_folded(alloc: Global, value: &Value, pattern: &str) -> Result<bool, AllocError>
    ensures { IfOk result (λ b. b ≡ is_liked_folded_of (text_in (datum_of value.now)) (chars pattern.now)) }
{
    match value {
        Value::Text(own) => like_folded(alloc, own.as_ref().as_str(), pattern),
        _ => Ok(false),
    }
}

fn is_liked_folded_at(
    alloc: Global,
    feature: &Feature,
    pattern: &FoldedPattern,
) -> Result<bool, AllocError>
    ensures { IfOk result (λ b. b ≡ is_liked_folded_of (text_in (datum_at feature.now pattern.now.property)) pattern.now.pattern) }
{
    let property = pattern.property();
    if property < feature.values.len() {
        is_liked_folded(alloc, &feature.values[property], pattern.as_str())
    } else {
        Ok(false)
    }
}

// The marks are compared first: of most features no text is looked at.
fn has_liked_folded(
    alloc: Global,
    feature: &Feature,
    pattern: &FoldedPattern,
) -> Result<bool, AllocError>
    ensures { IfOk result (λ b. b ≡ is_liked_folded_of (text_in (datum_at feature.now pattern.now.property)) pattern.now.pattern) }
{
    if feature.may_fold_like(pattern) {
        is_liked_folded_at(alloc, feature, pattern)
    } else {
        Ok(false)
    }
}

// Whether the two have a cell in common, or the feature has more than 64 cells.
fn are_near(own: Cells, asked: Cells) -> bool
    ensures { result ≡ is_candidate (block_at asked) (Some (block_at own)) }
{
    own.is_wide() || own.share_a_cell(asked)
}

fn is_near_value(value: &Value, shape: &Shape) -> bool
    ensures { result ≡ is_candidate (block_around (shape_corners shape.now)) (block_in (datum_of value.now)) }
{
    match bounds_of(value) {
        None => false,
        Some(own) => are_near(Cells::of(own), Cells::of(bounds(shape))),
    }
}

fn is_near(feature: &Feature, property: usize, shape: &Shape) -> bool
    ensures { result ≡ is_near_of property (block_around (shape_corners shape.now)) feature.now }
{
    if property < feature.values.len() {
        is_near_value(&feature.values[property], shape)
    } else {
        false
    }
}

// The cells are looked at first, since they are quick to compare.
fn is_said_near(
    alloc: Global,
    filter: &Filter,
    property: usize,
    shape: &Shape,
    feature: &Feature,
) -> Result<bool, AllocError>
    ensures said { IfOk result (λ b. b ≡ (is_near_of property (block_around (shape_corners shape.now)) feature.now && in_side true feature.now filter.now)) }
    ensures answers { folds_case filter.now ≡ false → IsOk result }
{
    if is_near(feature, property, shape) {
        is_said(alloc, filter, true, feature)
    } else {
        Ok(false)
    }
}

/// Whether the feature meets the form. An error means out of memory. Memory is taken only for texts whose case is folded: a form
/// without such a text is always answered.
#[cycle(tested)]
pub fn test(alloc: Global, form: &Normal, feature: &Feature) -> Result<bool, AllocError>
    ensures said { IfOk result (λ b. b ≡ meets feature.now form.now) }
    ensures answers { folds form.now ≡ false → IsOk result }
{
    match form {
        Normal::Constant(b) => Ok(*b),
        Normal::Range(range) => Ok(lies_in(range, feature)),
        Normal::Like { pattern, range } => {
            Ok(lies_in(range, feature) && is_liked_at(feature, range.property, pattern))
        }
        Normal::Atom { filter, side } => is_said(alloc, filter, *side, feature),
        Normal::Owned { filter, side } => is_said(alloc, filter, *side, feature),
        Normal::Folded(text) => Ok(has_folded(feature, text)),
        Normal::LikeFolded(pattern) => has_liked_folded(alloc, feature, pattern),
        Normal::Near {
            filter,
            property,
            shape,
        } => is_said_near(alloc, filter, *property, shape, feature),
        Normal::And(parts) => meets_all(alloc, parts, feature),
        Normal::Or(parts) => meets_some(alloc, parts, feature),
    }
}

#[cycle(tested)]
fn meets_all(alloc: Global, parts: &[Normal], feature: &Feature) -> Result<bool, AllocError>
    ensures said { IfOk result (λ b. b ≡ list_all (meets feature.now) parts.now) }
    ensures answers { list_any folds parts.now ≡ false → IsOk result }
{
    for part in parts {
        let is_met = match part {
            Normal::Range(range) => lies_in(range, feature),
            _ => test(alloc, part, feature)?,
        };
        if !is_met {
            return Ok(false);
        }
    }
    Ok(true)
}

#[cycle(tested)]
fn meets_some(alloc: Global, parts: &[Normal], feature: &Feature) -> Result<bool, AllocError>
    ensures said { IfOk result (λ b. b ≡ list_any (meets feature.now) parts.now) }
    ensures answers { list_any folds parts.now ≡ false → IsOk result }
{
    for part in parts {
        let is_met = match part {
            Normal::Range(range) => lies_in(range, feature),
            _ => test(alloc, part, feature)?,
        };
        if is_met {
            return Ok(true);
        }
    }
    Ok(false)
}
