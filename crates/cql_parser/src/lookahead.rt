//! A look at the first token.

ghost use Rattle.std.specs.Prelude.{IfSome, IfNone, length, ◌<◌, List, ◌≡◌, ◌∷◌, ℕ, string_bytes, if◌then◌else◌};
ghost use Rattle.cql_lexer.specs.Mark.{marks, at, opening, closing, comma, plus, minus, times, modulo, word, name, text, number};
ghost use Rattle.cql_parser.specs.inner.Descent.{Begins, BeginsNo};
ghost use Rattle.cql_parser.specs.Grammar.{IsAddition, IsMultiplication, operation_sort};
ghost use Rattle.cql_lexer.specs.declared.token.Keyword.TheVariants.{And, Or, Not, Null, Div};

use cql_lexer::{Keyword, Kind, Token};
use cql_tree::Operation;

/// What follows an OR.
pub(crate) fn after_or(tokens: &[Token]) -> Option<&[Token]>
    ensures found { IfSome result (λ rest. Begins (word Or) (marks tokens.now) (marks rest.now)) }
    ensures none { IfNone result (BeginsNo (word Or) (marks tokens.now)) }
    ensures shorter { IfSome result (λ rest. length rest.now < length tokens.now) }
{
    let (first, rest) = tokens.split_first()?;
    match first.kind {
        Kind::Word(Keyword::Or) => Some(rest),
        _ => None,
    }
}

/// What follows an AND.
pub(crate) fn after_and(tokens: &[Token]) -> Option<&[Token]>
    ensures found { IfSome result (λ rest. Begins (word And) (marks tokens.now) (marks rest.now)) }
    ensures none { IfNone result (BeginsNo (word And) (marks tokens.now)) }
    ensures shorter { IfSome result (λ rest. length rest.now < length tokens.now) }
{
    let (first, rest) = tokens.split_first()?;
    match first.kind {
        Kind::Word(Keyword::And) => Some(rest),
        _ => None,
    }
}

/// What follows a NULL.
pub(crate) fn after_null(tokens: &[Token]) -> Option<&[Token]>
    ensures found { IfSome result (λ rest. Begins (word Null) (marks tokens.now) (marks rest.now)) }
    ensures none { IfNone result (BeginsNo (word Null) (marks tokens.now)) }
    ensures shorter { IfSome result (λ rest. length rest.now < length tokens.now) }
{
    let (first, rest) = tokens.split_first()?;
    match first.kind {
        Kind::Word(Keyword::Null) => Some(rest),
        _ => None,
    }
}

/// What follows an opening parenthesis.
pub(crate) fn after_open(tokens: &[Token]) -> Option<&[Token]>
    ensures found { IfSome result (λ rest. Begins opening (marks tokens.now) (marks rest.now)) }
    ensures none { IfNone result (BeginsNo opening (marks tokens.now)) }
    ensures shorter { IfSome result (λ rest. length rest.now < length tokens.now) }
{
    let (first, rest) = tokens.split_first()?;
    match first.kind {
        Kind::Open => Some(rest),
        _ => None,
    }
}

/// What follows a closing parenthesis.
pub(crate) fn after_close(tokens: &[Token]) -> Option<&[Token]>
    ensures found { IfSome result (λ rest. Begins closing (marks tokens.now) (marks rest.now)) }
    ensures none { IfNone result (BeginsNo closing (marks tokens.now)) }
    ensures shorter { IfSome result (λ rest. length rest.now < length tokens.now) }
{
    let (first, rest) = tokens.split_first()?;
    match first.kind {
        Kind::Close => Some(rest),
        _ => None,
    }
}

/// What follows a comma.
pub(crate) fn after_comma(tokens: &[Token]) -> Option<&[Token]>
    ensures found { IfSome result (λ rest. Begins comma (marks tokens.now) (marks rest.now)) }
    ensures none { IfNone result (BeginsNo comma (marks tokens.now)) }
    ensures shorter { IfSome result (λ rest. length rest.now < length tokens.now) }
{
    let (first, rest) = tokens.split_first()?;
    match first.kind {
        Kind::Comma => Some(rest),
        _ => None,
    }
}

/// The place of a NOT, and what follows it.
pub(crate) fn after_not(tokens: &[Token]) -> Option<(usize, &[Token])>
    ensures found { IfSome result (λ r. marks tokens.now ≡ at r.0 (word Not) ∷ marks r.1.now) }
    ensures none { IfNone result (BeginsNo (word Not) (marks tokens.now)) }
    ensures shorter { IfSome result (λ r. length r.1.now < length tokens.now) }
{
    let (first, rest) = tokens.split_first()?;
    match first.kind {
        Kind::Word(Keyword::Not) => Some((first.place, rest)),
        _ => None,
    }
}

/// Whether a sign is a minus, and what follows it.
pub(crate) fn after_sign(tokens: &[Token]) -> Option<(bool, &[Token])>
    ensures found { IfSome result (λ r. Begins (if r.0 then minus else plus) (marks tokens.now) (marks r.1.now)) }
    ensures no_plus { IfNone result (BeginsNo plus (marks tokens.now)) }
    ensures no_minus { IfNone result (BeginsNo minus (marks tokens.now)) }
    ensures shorter { IfSome result (λ r. length r.1.now < length tokens.now) }
{
    let (first, rest) = tokens.split_first()?;
    match first.kind {
        Kind::Plus => Some((false, rest)),
        Kind::Minus => Some((true, rest)),
        _ => None,
    }
}

/// A sign between the parts of a sum, and what follows it.
pub(crate) fn after_addition(tokens: &[Token]) -> Option<(Operation, &[Token])>
    ensures adds { IfSome result (λ r. IsAddition r.0) }
    ensures found { IfSome result (λ r. Begins (operation_sort r.0) (marks tokens.now) (marks r.1.now)) }
    ensures no_plus { IfNone result (BeginsNo plus (marks tokens.now)) }
    ensures no_minus { IfNone result (BeginsNo minus (marks tokens.now)) }
    ensures shorter { IfSome result (λ r. length r.1.now < length tokens.now) }
{
    let (first, rest) = tokens.split_first()?;
    match first.kind {
        Kind::Plus => Some((Operation::Plus, rest)),
        Kind::Minus => Some((Operation::Minus, rest)),
        _ => None,
    }
}

/// A sign between the parts of a product, and what follows it.
pub(crate) fn after_multiplication(tokens: &[Token]) -> Option<(Operation, &[Token])>
    ensures multiplies { IfSome result (λ r. IsMultiplication r.0) }
    ensures found { IfSome result (λ r. Begins (operation_sort r.0) (marks tokens.now) (marks r.1.now)) }
    ensures no_times { IfNone result (BeginsNo times (marks tokens.now)) }
    ensures no_div { IfNone result (BeginsNo (word Div) (marks tokens.now)) }
    ensures no_modulo { IfNone result (BeginsNo modulo (marks tokens.now)) }
    ensures shorter { IfSome result (λ r. length r.1.now < length tokens.now) }
{
    let (first, rest) = tokens.split_first()?;
    match first.kind {
        Kind::Times => Some((Operation::Times, rest)),
        Kind::Word(Keyword::Div) => Some((Operation::Div, rest)),
        Kind::Modulo => Some((Operation::Modulo, rest)),
        _ => None,
    }
}

/// The place of a name, the name, and what follows it.
pub(crate) fn after_name(tokens: &[Token]) -> Option<(usize, &String, &[Token])>
    ensures found { IfSome result
        (λ r. marks tokens.now ≡ at r.0 (name (string_bytes r.1.now)) ∷ marks r.2.now) }
    ensures none { IfNone result ((s : List ℕ) → BeginsNo (name s) (marks tokens.now)) }
    ensures shorter { IfSome result (λ r. length r.2.now < length tokens.now) }
{
    let (first, rest) = tokens.split_first()?;
    match &first.kind {
        Kind::Name(name) => Some((first.place, name, rest)),
        _ => None,
    }
}

/// The place of a text, its content, and what follows it.
pub(crate) fn after_text(tokens: &[Token]) -> Option<(usize, &String, &[Token])>
    ensures found { IfSome result
        (λ r. marks tokens.now ≡ at r.0 (text (string_bytes r.1.now)) ∷ marks r.2.now) }
    ensures none { IfNone result ((s : List ℕ) → BeginsNo (text s) (marks tokens.now)) }
    ensures shorter { IfSome result (λ r. length r.2.now < length tokens.now) }
{
    let (first, rest) = tokens.split_first()?;
    match &first.kind {
        Kind::Text(content) => Some((first.place, content, rest)),
        _ => None,
    }
}

/// The place of a number, its digits, and what follows it.
pub(crate) fn after_number(tokens: &[Token]) -> Option<(usize, &String, &[Token])>
    ensures found { IfSome result
        (λ r. marks tokens.now ≡ at r.0 (number (string_bytes r.1.now)) ∷ marks r.2.now) }
    ensures none { IfNone result ((s : List ℕ) → BeginsNo (number s) (marks tokens.now)) }
    ensures shorter { IfSome result (λ r. length r.2.now < length tokens.now) }
{
    let (first, rest) = tokens.split_first()?;
    match &first.kind {
        Kind::Number(digits) => Some((first.place, digits, rest)),
        _ => None,
    }
}
