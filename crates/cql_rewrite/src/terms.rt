//! Comparisons of terms of one kind.

ghost use Rattle.std.specs.Prelude.{◌≡◌, true, IfOk, Some};
ghost use Rattle.cad_feature.specs.Features.{Item};
ghost use Rattle.cql_meaning.specs.Arithmetic.{whole_value};
ghost use Rattle.cql_meaning.specs.Sides.{compared, days, texts, wholes};
ghost use Rattle.cql_meaning.specs.Values.{text_value};
ghost use Rattle.cql_text.specs.Fronts.{text_of};
ghost use Rattle.cql_rewrite.specs.Terms.{day_sides, is_exact, is_plain_days, is_plain_texts, is_plain_wholes, plain_sides, text_sides, whole_sides};

use crate::plain::{Plain, stands, turned};
use cad_range::Scalar;
use cql_lexer::Comparison;
use cql_meaning::{constant_text, constant_whole};
use cql_text::compare;
use cql_types::{DayTerm, TextTerm, WholeTerm};
use std::alloc::{AllocError, Global};

// ---- whole numbers

fn decided_wholes(by: Comparison, left: Option<i64>, right: Option<i64>) -> Plain
    ensures says { (x : Item) → plain_sides x result (compared (wholes by) left right) ≡ compared (wholes by) left right }
    ensures exact { is_exact result ≡ true }
{
    match (left, right) {
        (Some(a), Some(b)) => Plain::Decided(stands(by, a.cmp(&b))),
        (None, _) | (_, None) => Plain::Never,
    }
}

// A property compared with a constant, or with a term that is null on every feature.
fn against_whole(by: Comparison, term: &WholeTerm, known: Option<i64>) -> Plain
    ensures { (x : Item) → plain_sides x result (compared (wholes by) (whole_value x term.now) known) ≡ compared (wholes by) (whole_value x term.now) known }
{
    match (term, known) {
        (_, None) => Plain::Never,
        (WholeTerm::Property(property), Some(number)) => Plain::Compared {
            property: *property,
            by,
            scalar: Scalar::Whole(number),
        },
        _ => Plain::Other,
    }
}

// If the constants are not literals, but computed.
fn computed_wholes(by: Comparison, left: &WholeTerm, right: &WholeTerm) -> Plain
    ensures { (x : Item) → plain_sides x result (whole_sides by x left.now right.now) ≡ whole_sides by x left.now right.now }
{
    match (constant_whole(left), constant_whole(right)) {
        (Some(a), Some(b)) => decided_wholes(by, a, b),
        (None, Some(known)) => against_whole(by, left, known),
        (Some(known), None) => against_whole(turned(by), right, known),
        (None, None) => Plain::Other,
    }
}

/// What a comparison of two whole numbers reduces to.
pub(crate) fn plain_wholes(by: Comparison, left: &WholeTerm, right: &WholeTerm) -> Plain
    ensures says { (x : Item) → plain_sides x result (whole_sides by x left.now right.now) ≡ whole_sides by x left.now right.now }
    ensures exact { is_plain_wholes by left.now right.now ≡ true → is_exact result ≡ true }
{
    match (left, right) {
        (WholeTerm::Property(property), WholeTerm::Constant(n)) => Plain::Compared {
            property: *property,
            by,
            scalar: Scalar::Whole(*n),
        },
        (WholeTerm::Constant(n), WholeTerm::Property(property)) => Plain::Compared {
            property: *property,
            by: turned(by),
            scalar: Scalar::Whole(*n),
        },
        (WholeTerm::Constant(a), WholeTerm::Constant(b)) => Plain::Decided(stands(by, a.cmp(b))),
        _ => computed_wholes(by, left, right),
    }
}

// ---- texts

/// A copy of the text.
pub(crate) fn copied(alloc: Global, text: &String) -> Result<String, AllocError>
    ensures { IfOk result (λ s. text_of s ≡ text_of text.now) }
{
    let copy = String::from_str(alloc, text.as_str())?;
    Ok(copy)
}

// A property compared with a constant.
fn against_text(by: Comparison, term: &TextTerm, known: String) -> Plain
    ensures { (x : Item) → plain_sides x result (compared (texts by) (text_value x term.now) (Some (text_of known))) ≡ compared (texts by) (text_value x term.now) (Some (text_of known)) }
{
    match term {
        TextTerm::Property(property) => Plain::Compared {
            property: *property,
            by,
            scalar: Scalar::Text(known),
        },
        _ => Plain::Other,
    }
}

// If the constants are not literals, but folded.
fn computed_texts(
    alloc: Global,
    by: Comparison,
    left: &TextTerm,
    right: &TextTerm,
) -> Result<Plain, AllocError>
    ensures { IfOk result (λ p. (x : Item) → plain_sides x p (text_sides by x left.now right.now) ≡ text_sides by x left.now right.now) }
{
    let first = constant_text(alloc, left)?;
    let second = constant_text(alloc, right)?;
    match (first, second) {
        (Some(a), Some(b)) => Ok(Plain::Decided(stands(by, compare(a.as_str(), b.as_str())))),
        (None, Some(known)) => Ok(against_text(by, left, known)),
        (Some(known), None) => Ok(against_text(turned(by), right, known)),
        (None, None) => Ok(Plain::Other),
    }
}

/// What a comparison of two texts reduces to.
pub(crate) fn plain_texts(
    alloc: Global,
    by: Comparison,
    left: &TextTerm,
    right: &TextTerm,
) -> Result<Plain, AllocError>
    ensures says { IfOk result (λ p. (x : Item) → plain_sides x p (text_sides by x left.now right.now) ≡ text_sides by x left.now right.now) }
    ensures exact { IfOk result (λ p. is_plain_texts by left.now right.now ≡ true → is_exact p ≡ true) }
{
    match (left, right) {
        (TextTerm::Property(property), TextTerm::Constant(text)) => {
            let text = copied(alloc, text)?;
            Ok(Plain::Compared {
                property: *property,
                by,
                scalar: Scalar::Text(text),
            })
        }
        (TextTerm::Constant(text), TextTerm::Property(property)) => {
            let text = copied(alloc, text)?;
            Ok(Plain::Compared {
                property: *property,
                by: turned(by),
                scalar: Scalar::Text(text),
            })
        }
        _ => {
            let plain = computed_texts(alloc, by, left, right)?;
            Ok(plain)
        }
    }
}

// ---- days

/// What a comparison of two days reduces to.
pub(crate) fn plain_days(by: Comparison, left: &DayTerm, right: &DayTerm) -> Plain
    ensures says { (x : Item) → plain_sides x result (day_sides by x left.now right.now) ≡ day_sides by x left.now right.now }
    ensures exact { is_plain_days by left.now right.now ≡ true → is_exact result ≡ true }
{
    match (left, right) {
        (DayTerm::Property(property), DayTerm::Constant(day)) => Plain::Compared {
            property: *property,
            by,
            scalar: Scalar::Day(*day),
        },
        (DayTerm::Constant(day), DayTerm::Property(property)) => Plain::Compared {
            property: *property,
            by: turned(by),
            scalar: Scalar::Day(*day),
        },
        (DayTerm::Constant(a), DayTerm::Constant(b)) => {
            Plain::Decided(stands(by, a.number().cmp(&b.number())))
        }
        (DayTerm::Property(_), DayTerm::Property(_)) => Plain::Other,
    }
}

// ---- terms of any of the three kinds

/// A term of a kind that has an order.
pub(crate) trait Term {
    ghost use Rattle.std.specs.Prelude.{◌≡◌, Bool, true, IfOk};
    ghost use Rattle.cad_feature.specs.Features.{Item};
    ghost use Rattle.cql_lexer.specs.declared.token.Comparison.{Comparison};
    ghost use Rattle.cql_meaning.specs.Sides.{Sides};
    ghost use Rattle.cql_rewrite.specs.Terms.{is_exact, plain_sides};

    ghost said: { Comparison → Item → Self → Self → Sides };

    ghost is_plain: { Comparison → Self → Self → Bool };

    /// What a comparison of two terms reduces to.
    fn plain(alloc: Global, by: Comparison, left: &Self, right: &Self) -> Result<Plain, AllocError>
        ensures says { IfOk result (λ p. (x : Item) → plain_sides x p (said by x left.now right.now) ≡ said by x left.now right.now) }
        ensures exact { IfOk result (λ p. is_plain by left.now right.now ≡ true → is_exact p ≡ true) };
}

impl Term for WholeTerm {
    ghost use Rattle.cql_rewrite.specs.Terms.{is_plain_wholes, whole_sides};

    ghost said = { whole_sides };

    ghost is_plain = { is_plain_wholes };

    fn plain(
        alloc: Global,
        by: Comparison,
        left: &WholeTerm,
        right: &WholeTerm,
    ) -> Result<Plain, AllocError> {
        Ok(plain_wholes(by, left, right))
    }
}

impl Term for TextTerm {
    ghost use Rattle.cql_rewrite.specs.Terms.{is_plain_texts, text_sides};

    ghost said = { text_sides };

    ghost is_plain = { is_plain_texts };

    fn plain(
        alloc: Global,
        by: Comparison,
        left: &TextTerm,
        right: &TextTerm,
    ) -> Result<Plain, AllocError> {
        let plain = plain_texts(alloc, by, left, right)?;
        Ok(plain)
    }
}

impl Term for DayTerm {
    ghost use Rattle.cql_rewrite.specs.Terms.{day_sides, is_plain_days};

    ghost said = { day_sides };

    ghost is_plain = { is_plain_days };

    fn plain(
        alloc: Global,
        by: Comparison,
        left: &DayTerm,
        right: &DayTerm,
    ) -> Result<Plain, AllocError> {
        Ok(plain_days(by, left, right))
    }
}
