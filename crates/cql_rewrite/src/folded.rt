//! Conditions that are kept as they are, with the case of their constants folded beforehand.

ghost use Rattle.std.specs.Prelude.{◌≡◌, IfOk, IfSome, map};
ghost use Rattle.cad_feature.specs.Features.{Item};
ghost use Rattle.cql_meaning.specs.Sides.{sides};
ghost use Rattle.cql_meaning.specs.Values.{folded_content, text_value};
ghost use Rattle.cql_rewrite.specs.Atoms.{HasPlainAtoms, IsAtom};
ghost use Rattle.cql_rewrite.specs.Meets.{in_side, meets};
ghost use Rattle.cql_rewrite.specs.Terms.{filter_or, in_text_sides, like_sides, met_or, text_sides};

use crate::folded_equality::folded_equality;
use crate::folded_like::folded_like;
use crate::form::Normal;
use crate::terms::copied;
use cql_lexer::Comparison;
use cql_text::fold;
use cql_types::{Filter, TextTerm};
use std::alloc::{AllocError, Global};

// Whether a constant is inside a CASEI.
fn folds_constant(term: &TextTerm) -> bool {
    match term {
        TextTerm::Constant(_) | TextTerm::Property(_) => false,
        TextTerm::Folded(inner) => holds_constant(inner),
    }
}

fn holds_constant(term: &TextTerm) -> bool {
    match term {
        TextTerm::Constant(_) => true,
        TextTerm::Property(_) => false,
        TextTerm::Folded(inner) => holds_constant(inner),
    }
}

fn some_folds_constant(terms: &[TextTerm]) -> bool {
    for term in terms {
        if folds_constant(term) {
            return true;
        }
    }
    false
}

// A term whose case is folded: if it is a constant, it is folded at once.
fn folded(alloc: Global, term: TextTerm) -> Result<TextTerm, AllocError>
    ensures { IfOk result (λ t. (x : Item) → text_value x t ≡ folded_content (text_value x term)) }
{
    match term {
        TextTerm::Constant(text) => {
            let text = fold(alloc, text.as_str())?;
            Ok(TextTerm::Constant(text))
        }
        term => {
            let term = Box::new(alloc, term)?;
            Ok(TextTerm::Folded(term))
        }
    }
}

// A copy of the term, with its constants folded.
fn settled(alloc: Global, term: &TextTerm) -> Result<TextTerm, AllocError>
    ensures { IfOk result (λ t. (x : Item) → text_value x t ≡ text_value x term.now) }
{
    match term {
        TextTerm::Constant(text) => {
            let text = copied(alloc, text)?;
            Ok(TextTerm::Constant(text))
        }
        TextTerm::Property(property) => Ok(TextTerm::Property(*property)),
        TextTerm::Folded(inner) => {
            let inner = settled(alloc, inner)?;
            let term = folded(alloc, inner)?;
            Ok(term)
        }
    }
}

fn settled_items(alloc: Global, items: &[TextTerm]) -> Result<Vec<TextTerm>, AllocError>
    ensures { IfOk result (λ v. (x : Item) → map (text_value x) v.items ≡ map (text_value x) items.now) }
{
    let mut terms = Vec::new(alloc);
    for item in items {
        let term = settled(alloc, item)?;
        terms.push(term)?;
    }
    Ok(terms)
}

fn settled_comparison(
    alloc: Global,
    by: Comparison,
    left: &TextTerm,
    right: &TextTerm,
) -> Result<Filter, AllocError>
    ensures stands { IfOk result (λ f. (x : Item) → sides x f ≡ text_sides by x left.now right.now) }
    ensures atom { IfOk result IsAtom }
{
    let left = settled(alloc, left)?;
    let right = settled(alloc, right)?;
    Ok(Filter::CompareText { by, left, right })
}

fn settled_like(alloc: Global, value: &TextTerm, pattern: &TextTerm) -> Result<Filter, AllocError>
    ensures stands { IfOk result (λ f. (x : Item) → sides x f ≡ like_sides x value.now pattern.now) }
    ensures atom { IfOk result IsAtom }
{
    let value = settled(alloc, value)?;
    let pattern = settled(alloc, pattern)?;
    Ok(Filter::Like { value, pattern })
}

fn settled_in(alloc: Global, value: &TextTerm, items: &[TextTerm]) -> Result<Filter, AllocError>
    ensures stands { IfOk result (λ f. (x : Item) → sides x f ≡ in_text_sides x value.now items.now) }
    ensures atom { IfOk result IsAtom }
{
    let value = settled(alloc, value)?;
    let items = settled_items(alloc, items)?;
    Ok(Filter::InText { value, items })
}

// A copy of the filter, if it folds the case of a constant.
fn settled_filter(alloc: Global, filter: &Filter) -> Result<Option<Filter>, AllocError>
    ensures stands { IfOk result (λ o. (x : Item) → filter_or x o (sides x filter.now) ≡ sides x filter.now) }
    ensures atom { IfOk result (λ o. IfSome o IsAtom) }
{
    match filter {
        Filter::CompareText { by, left, right } => {
            if folds_constant(left) || folds_constant(right) {
                let comparison = settled_comparison(alloc, *by, left, right)?;
                return Ok(Some(comparison));
            }
            Ok(None)
        }
        Filter::Like { value, pattern } => {
            if folds_constant(value) || folds_constant(pattern) {
                let like = settled_like(alloc, value, pattern)?;
                return Ok(Some(like));
            }
            Ok(None)
        }
        Filter::InText { value, items } => {
            if folds_constant(value) || some_folds_constant(items) {
                let among = settled_in(alloc, value, items)?;
                return Ok(Some(among));
            }
            Ok(None)
        }
        _ => Ok(None),
    }
}

// The filter, with its constants folded.
fn settled_atom<'a>(alloc: Global, filter: &'a Filter, side: bool) -> Result<Normal<'a>, AllocError>
    ensures stands { IfOk result (λ n. (x : Item) → meets x n ≡ in_side side x filter.now) }
    ensures atoms { IfOk result (λ n. IsAtom filter.now → HasPlainAtoms n) }
{
    let settled = settled_filter(alloc, filter)?;
    match settled {
        Some(filter) => Ok(Normal::Owned { filter, side }),
        None => Ok(Normal::Atom { filter, side }),
    }
}

// The form of a condition that marks of texts with their case folded may decide.
fn marked<'a>(alloc: Global, filter: &Filter, side: bool) -> Result<Option<Normal<'a>>, AllocError>
    ensures stands { IfOk result (λ o. (x : Item) → met_or x o (in_side side x filter.now) ≡ in_side side x filter.now) }
    ensures atoms { IfOk result (λ o. IfSome o HasPlainAtoms) }
{
    let equality = folded_equality(alloc, filter, side)?;
    match equality {
        Some(form) => Ok(Some(form)),
        None => folded_like(alloc, filter, side),
    }
}

/// The filter as a condition by itself. An error means out of memory.
pub(crate) fn atom<'a>(
    alloc: Global,
    filter: &'a Filter,
    side: bool,
) -> Result<Normal<'a>, AllocError>
    ensures stands { IfOk result (λ n. (x : Item) → meets x n ≡ in_side side x filter.now) }
    ensures atoms { IfOk result (λ n. IsAtom filter.now → HasPlainAtoms n) }
{
    let marked = marked(alloc, filter, side)?;
    match marked {
        Some(form) => Ok(form),
        None => settled_atom(alloc, filter, side),
    }
}
