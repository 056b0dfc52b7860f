//! The form of LIKE with a property whose case is folded and a constant pattern.

ghost use Rattle.std.specs.Prelude.{◌≡◌, IfOk, IfSome};
ghost use Rattle.cad_feature.specs.Features.{Item, datum_at};
ghost use Rattle.cql_meaning.specs.Sides.{compared, is_like};
ghost use Rattle.cql_meaning.specs.Values.{folded_content, text_in, text_value};
ghost use Rattle.cql_rewrite.specs.Atoms.{HasPlainAtoms};
ghost use Rattle.cql_rewrite.specs.Meets.{in_side};
ghost use Rattle.cql_rewrite.specs.Terms.{like_sides, met_or};

use crate::folded_equality::folded_property;
use crate::form::Normal;
use cad_feature::FoldedPattern;
use cql_meaning::constant_text;
use cql_types::{Filter, TextTerm};
use std::alloc::{AllocError, Global};

// That the text of the property, with its case folded, is like the pattern, if the pattern is a constant.
fn like_pattern<'a>(
    alloc: Global,
    property: usize,
    pattern: &TextTerm,
) -> Result<Option<Normal<'a>>, AllocError>
    ensures stands { IfOk result (λ o. (x : Item) → met_or x o (compared is_like (folded_content (text_in (datum_at x property))) (text_value x pattern.now)).yes ≡ (compared is_like (folded_content (text_in (datum_at x property))) (text_value x pattern.now)).yes) }
    ensures atoms { IfOk result (λ o. IfSome o HasPlainAtoms) }
{
    let text = constant_text(alloc, pattern)?;
    match text {
        Some(text) => Ok(Some(Normal::LikeFolded(FoldedPattern::new(property, text)))),
        None => Ok(None),
    }
}

fn of_like<'a>(
    alloc: Global,
    value: &TextTerm,
    pattern: &TextTerm,
) -> Result<Option<Normal<'a>>, AllocError>
    ensures stands { IfOk result (λ o. (x : Item) → met_or x o (like_sides x value.now pattern.now).yes ≡ (like_sides x value.now pattern.now).yes) }
    ensures atoms { IfOk result (λ o. IfSome o HasPlainAtoms) }
{
    match folded_property(value) {
        Some(property) => {
            let form = like_pattern(alloc, property, pattern)?;
            Ok(form)
        }
        None => Ok(None),
    }
}

/// The form of the filter, if it is such a LIKE, and the features are asked of which it is true. An error means out of memory.
pub(crate) fn folded_like<'a>(
    alloc: Global,
    filter: &Filter,
    side: bool,
) -> Result<Option<Normal<'a>>, AllocError>
    ensures stands { IfOk result (λ o. (x : Item) → met_or x o (in_side side x filter.now) ≡ in_side side x filter.now) }
    ensures atoms { IfOk result (λ o. IfSome o HasPlainAtoms) }
{
    match (filter, side) {
        (Filter::Like { value, pattern }, true) => {
            let form = of_like(alloc, value, pattern)?;
            Ok(form)
        }
        _ => Ok(None),
    }
}
