//! The form of an equality of a property whose case is folded and a constant.

ghost use Rattle.std.specs.Prelude.{◌≡◌, IfOk, IfSome};
ghost use Rattle.cad_feature.specs.Features.{Item, datum_at};
ghost use Rattle.cql_lexer.specs.declared.token.Comparison.TheVariants as comparison;
ghost use Rattle.cql_meaning.specs.Sides.{compared, texts};
ghost use Rattle.cql_meaning.specs.Values.{folded_content, text_in, text_value};
ghost use Rattle.cql_rewrite.specs.Atoms.{HasPlainAtoms};
ghost use Rattle.cql_rewrite.specs.Meets.{in_side};
ghost use Rattle.cql_rewrite.specs.Terms.{met_or, text_sides};

use crate::form::Normal;
use cad_feature::FoldedText;
use cql_lexer::Comparison;
use cql_meaning::constant_text;
use cql_types::{Filter, TextTerm};
use std::alloc::{AllocError, Global};

// The property that the term is.
fn property(term: &TextTerm) -> Option<usize>
    ensures { IfSome result (λ property. (x : Item) → text_value x term.now ≡ text_in (datum_at x property)) }
{
    match term {
        TextTerm::Property(property) => Some(*property),
        _ => None,
    }
}

/// The property whose text the term is, with its case folded.
pub(crate) fn folded_property(term: &TextTerm) -> Option<usize>
    ensures { IfSome result (λ property. (x : Item) → text_value x term.now ≡ folded_content (text_in (datum_at x property))) }
{
    match term {
        TextTerm::Folded(inner) => property(inner),
        _ => None,
    }
}

// That the text of the property, with its case folded, equals the term, if the term is a constant.
fn equal_to<'a>(
    alloc: Global,
    property: usize,
    term: &TextTerm,
) -> Result<Option<Normal<'a>>, AllocError>
    ensures stands { IfOk result (λ o. (x : Item) → met_or x o (compared (texts comparison.Equal) (folded_content (text_in (datum_at x property))) (text_value x term.now)).yes ≡ (compared (texts comparison.Equal) (folded_content (text_in (datum_at x property))) (text_value x term.now)).yes) }
    ensures atoms { IfOk result (λ o. IfSome o HasPlainAtoms) }
{
    let text = constant_text(alloc, term)?;
    match text {
        Some(text) => Ok(Some(Normal::Folded(FoldedText::new(property, text)))),
        None => Ok(None),
    }
}

fn of_comparison<'a>(
    alloc: Global,
    by: Comparison,
    left: &TextTerm,
    right: &TextTerm,
) -> Result<Option<Normal<'a>>, AllocError>
    ensures stands { IfOk result (λ o. (x : Item) → met_or x o (text_sides by x left.now right.now).yes ≡ (text_sides by x left.now right.now).yes) }
    ensures atoms { IfOk result (λ o. IfSome o HasPlainAtoms) }
{
    match (by, folded_property(left), folded_property(right)) {
        (Comparison::Equal, Some(property), _) => {
            let form = equal_to(alloc, property, right)?;
            Ok(form)
        }
        (Comparison::Equal, None, Some(property)) => {
            let form = equal_to(alloc, property, left)?;
            Ok(form)
        }
        _ => Ok(None),
    }
}

/// The form of the filter, if it is such an equality, and the features are asked of which it is true. An error means out of memory.
pub(crate) fn folded_equality<'a>(
    alloc: Global,
    filter: &Filter,
    side: bool,
) -> Result<Option<Normal<'a>>, AllocError>
    ensures stands { IfOk result (λ o. (x : Item) → met_or x o (in_side side x filter.now) ≡ in_side side x filter.now) }
    ensures atoms { IfOk result (λ o. IfSome o HasPlainAtoms) }
{
    match (filter, side) {
        (Filter::CompareText { by, left, right }, true) => {
            let form = of_comparison(alloc, *by, left, right)?;
            Ok(form)
        }
        _ => Ok(None),
    }
}
