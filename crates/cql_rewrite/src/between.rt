//! The forms of BETWEEN.

ghost use Rattle.std.specs.Prelude.{◌≡◌, true, IfOk, IfSome, Some, is_some};
ghost use Rattle.cad_feature.specs.Features.{Item, datum_at};
ghost use Rattle.cad_range.specs.Ranges.{lies_in_if_any};
ghost use Rattle.cql_meaning.specs.Arithmetic.{whole_in, whole_value};
ghost use Rattle.cql_meaning.specs.Sides.{between as between_of, sides};
ghost use Rattle.cql_rewrite.specs.Atoms.{HasPlainAtoms, IsAtom};
ghost use Rattle.cql_rewrite.specs.Costs.{IsCounted, is_plain_between};
ghost use Rattle.cql_lexer.specs.declared.token.Comparison.TheVariants.{AtMost};
ghost use Rattle.cql_rewrite.specs.Meets.{in_side, joined_test, meets, side_of};
ghost use Rattle.cql_rewrite.specs.Terms.{met_or, whole_sides};

use crate::comparison::exact_form;
use crate::form::Normal;
use crate::parts::{pair, range_or_never};
use crate::terms::plain_wholes;
use cad_range::{Edge, Range, Scalar, range_between};
use cql_lexer::Comparison;
use cql_types::{Filter, WholeTerm};
use std::alloc::{AllocError, Global};

// The whole numbers from one to the other.
fn between_wholes(property: usize, a: i64, b: i64) -> Option<Range>
    ensures { (x : Item) → lies_in_if_any x result ≡ (between_of (whole_in (datum_at x property)) (Some a) (Some b)).yes }
{
    range_between(
        property,
        Edge::With(Scalar::Whole(a)),
        Edge::With(Scalar::Whole(b)),
    )
}

fn literal_between<'a>(value: &WholeTerm, low: &WholeTerm, high: &WholeTerm) -> Option<Normal<'a>>
    ensures says { (x : Item) → met_or x result (between_of (whole_value x value.now) (whole_value x low.now) (whole_value x high.now)).yes ≡ (between_of (whole_value x value.now) (whole_value x low.now) (whole_value x high.now)).yes }
    ensures counted { IfSome result IsCounted }
    ensures is_there { is_plain_between value.now low.now high.now ≡ true → is_some result ≡ true }
    ensures atoms { IfSome result HasPlainAtoms }
{
    match (value, low, high) {
        (WholeTerm::Property(property), WholeTerm::Constant(a), WholeTerm::Constant(b)) => {
            Some(range_or_never(between_wholes(*property, *a, *b)))
        }
        _ => None,
    }
}

// That the value is at most the one number, joined with the form of the other comparison.
fn with_most<'a>(
    alloc: Global,
    least: Normal<'a>,
    value: &WholeTerm,
    high: &WholeTerm,
    side: bool,
) -> Result<Option<Normal<'a>>, AllocError>
    ensures stands { IfOk result (λ o. (x : Item) → met_or x o (joined_test side (meets x least.entry) (side_of side (whole_sides AtMost x value.now high.now))) ≡ joined_test side (meets x least.entry) (side_of side (whole_sides AtMost x value.now high.now))) }
    ensures atoms { IfOk result (λ o. HasPlainAtoms least.entry → IfSome o HasPlainAtoms) }
{
    let most = match exact_form(alloc, plain_wholes(Comparison::AtMost, value, high), side) {
        Ok(most) => most,
        Err(error) => {
            drop(least);
            return Err(error);
        }
    };
    let Some(most) = most else {
        drop(least);
        return Ok(None);
    };
    let form = pair(alloc, least, most, side)?;
    Ok(Some(form))
}

// Both comparisons, if each reduces to a constant or a range.
fn computed_between<'a>(
    alloc: Global,
    value: &WholeTerm,
    low: &WholeTerm,
    high: &WholeTerm,
    side: bool,
) -> Result<Option<Normal<'a>>, AllocError>
    ensures stands { IfOk result (λ o. (x : Item) → met_or x o (side_of side (between_of (whole_value x value.now) (whole_value x low.now) (whole_value x high.now))) ≡ side_of side (between_of (whole_value x value.now) (whole_value x low.now) (whole_value x high.now))) }
    ensures atoms { IfOk result (λ o. IfSome o HasPlainAtoms) }
{
    let least = exact_form(alloc, plain_wholes(Comparison::AtLeast, value, low), side)?;
    match least {
        Some(least) => {
            let form = with_most(alloc, least, value, high, side)?;
            Ok(form)
        }
        None => Ok(None),
    }
}

/// The form of BETWEEN.
pub(crate) fn between<'a>(
    alloc: Global,
    filter: &'a Filter,
    value: &WholeTerm,
    low: &WholeTerm,
    high: &WholeTerm,
    side: bool,
) -> Result<Normal<'a>, AllocError>
    ensures stands { IfOk result (λ n. (x : Item) → sides x filter.now ≡ between_of (whole_value x value.now) (whole_value x low.now) (whole_value x high.now) → meets x n ≡ in_side side x filter.now) }
    ensures costs { IfOk result (λ n. side ≡ true → is_plain_between value.now low.now high.now ≡ true → IsCounted n) }
    ensures atoms { IfOk result (λ n. IsAtom filter.now → HasPlainAtoms n) }
{
    if side {
        if let Some(form) = literal_between(value, low, high) {
            return Ok(form);
        }
    }
    let form = computed_between(alloc, value, low, high, side)?;
    match form {
        Some(form) => Ok(form),
        None => Ok(Normal::Atom { filter, side }),
    }
}
