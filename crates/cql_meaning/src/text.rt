//! Texts.

ghost use Rattle.std.specs.Prelude.{◌≡◌, false, chars, IfOk, IsOk, Some};
ghost use Rattle.std.specs.List.{list_any};
ghost use Rattle.cad_feature.specs.Features.{datum_at};
ghost use Rattle.cad_feature.specs.Values.{datum_of};
ghost use Rattle.cql_meaning.specs.inner.Contents.{content};
ghost use Rattle.cql_meaning.specs.Folding.{folds_text};
ghost use Rattle.cql_meaning.specs.Said.{said};
ghost use Rattle.cql_meaning.specs.Sides.{among, compared, is_like, texts};
ghost use Rattle.cql_meaning.specs.Values.{folded_content, text_in as text_in_of, text_value};
ghost use Rattle.cql_lexer.specs.declared.token.Comparison.TheVariants.{Equal};

use crate::comparison::stands;
use crate::verdict::{Truth, or, truth_of};
use cad_feature::{Feature, Value};
use cql_lexer::Comparison;
use cql_text::{compare, compare_folded, fold, like, like_folded};
use cql_types::TextTerm;
use std::alloc::{AllocError, Global};
use std::borrow::CowStr;

fn text_in(value: &Value) -> Option<CowStr<'_>>
    ensures { content result ≡ text_in_of (datum_of value.now) }
{
    match value {
        Value::Text(text) => Some(CowStr::Borrowed(text.as_ref().as_str())),
        _ => None,
    }
}

fn text_at(feature: &Feature, place: usize) -> Option<CowStr<'_>>
    ensures { content result ≡ text_in_of (datum_at feature.now place) }
{
    text_in(feature.value(place)?)
}

// The text with its case folded, if there is a text.
fn folded(alloc: Global, text: Option<CowStr<'_>>) -> Result<Option<CowStr<'static>>, AllocError>
    ensures { IfOk result (λ folded. content folded ≡ folded_content (content text.entry)) }
{
    match text {
        Some(text) => Ok(Some(CowStr::Owned(fold(alloc, text.as_str())?))),
        None => Ok(None),
    }
}

/// The value of a term on a feature, if it has one. It is lent by the term or by the feature, unless its case is folded.
pub(crate) fn text<'a>(
    alloc: Global,
    term: &'a TextTerm,
    feature: &'a Feature,
) -> Result<Option<CowStr<'a>>, AllocError>
    ensures value { IfOk result (λ text. content text ≡ text_value feature.now term.now) }
    ensures lent { folds_text term.now ≡ false → IsOk result }
{
    match term {
        TextTerm::Constant(text) => Ok(Some(CowStr::Borrowed(text.as_str()))),
        TextTerm::Property(place) => Ok(text_at(feature, *place)),
        TextTerm::Folded(term) => folded(alloc, text(alloc, term, feature)?),
    }
}

pub(crate) fn compare_texts(by: Comparison, left: &Option<CowStr>, right: &Option<CowStr>) -> Truth
    ensures { said result ≡ compared (texts by) (content left.now) (content right.now) }
{
    match (left, right) {
        (Some(a), Some(b)) => truth_of(Some(stands(by, compare(a.as_str(), b.as_str())))),
        (None, _) | (_, None) => Truth::Unknown,
    }
}

// What a comparison says of the text with its case folded, and of a constant.
fn compare_folded_text(by: Comparison, text: &Option<CowStr>, constant: &str) -> Truth
    ensures { said result ≡ compared (texts by) (folded_content (content text.now)) (Some (chars constant.now)) }
{
    match text {
        Some(text) => truth_of(Some(stands(by, compare_folded(text.as_str(), constant)))),
        None => Truth::Unknown,
    }
}

/// What a comparison says of two terms on a feature. A text that is folded for a constant is folded as far as they are alike, and takes no
/// memory. An error means out of memory.
pub(crate) fn compare_terms(
    alloc: Global,
    by: Comparison,
    left: &TextTerm,
    right: &TextTerm,
    feature: &Feature,
) -> Result<Truth, AllocError>
    ensures said { IfOk result (λ t. said t ≡ compared (texts by) (text_value feature.now left.now) (text_value feature.now right.now)) }
    ensures lent { folds_text left.now ≡ false → folds_text right.now ≡ false → IsOk result }
{
    match (left, right) {
        (TextTerm::Folded(term), TextTerm::Constant(constant)) => {
            let term = text(alloc, term, feature)?;
            Ok(compare_folded_text(by, &term, constant.as_str()))
        }
        _ => {
            let left = text(alloc, left, feature)?;
            Ok(compare_texts(by, &left, &text(alloc, right, feature)?))
        }
    }
}

pub(crate) fn like_texts(text: &Option<CowStr>, pattern: &Option<CowStr>) -> Truth
    ensures { said result ≡ compared is_like (content text.now) (content pattern.now) }
{
    match (text, pattern) {
        (Some(text), Some(pattern)) => truth_of(Some(like(text.as_str(), pattern.as_str()))),
        (None, _) | (_, None) => Truth::Unknown,
    }
}

// Whether the text with its case folded is like the pattern.
fn like_folded_text(
    alloc: Global,
    text: &Option<CowStr>,
    pattern: &str,
) -> Result<Truth, AllocError>
    ensures { IfOk result (λ t. said t ≡ compared is_like (folded_content (content text.now)) (Some (chars pattern.now))) }
{
    match text {
        Some(text) => Ok(truth_of(Some(like_folded(alloc, text.as_str(), pattern)?))),
        None => Ok(Truth::Unknown),
    }
}

/// What LIKE says of two terms on a feature. If the text is folded for a constant pattern, it may be enough to fold its first character. An
/// error means out of memory.
pub(crate) fn like_terms(
    alloc: Global,
    value: &TextTerm,
    pattern: &TextTerm,
    feature: &Feature,
) -> Result<Truth, AllocError>
    ensures said { IfOk result (λ t. said t ≡ compared is_like (text_value feature.now value.now) (text_value feature.now pattern.now)) }
    ensures lent { folds_text value.now ≡ false → folds_text pattern.now ≡ false → IsOk result }
{
    match (value, pattern) {
        (TextTerm::Folded(term), TextTerm::Constant(pattern)) => {
            let term = text(alloc, term, feature)?;
            like_folded_text(alloc, &term, pattern.as_str())
        }
        _ => {
            let value = text(alloc, value, feature)?;
            Ok(like_texts(&value, &text(alloc, pattern, feature)?))
        }
    }
}

pub(crate) fn in_texts(
    alloc: Global,
    value: &Option<CowStr>,
    items: &[TextTerm],
    feature: &Feature,
) -> Result<Truth, AllocError>
    ensures said { IfOk result (λ t. said t ≡ among (texts Equal) (text_value feature.now) (content value.now) items.now) }
    ensures lent { list_any folds_text items.now ≡ false → IsOk result }
{
    let mut found = Truth::No;
    for item in items {
        let item = text(alloc, item, feature)?;
        found = or(found, compare_texts(Comparison::Equal, value, &item));
    }
    Ok(found)
}
