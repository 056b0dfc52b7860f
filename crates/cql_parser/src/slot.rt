//! The slots of functions and literals, each read from the front of the tokens.

ghost use Rattle.std.specs.Prelude.{◌≡◌, ◌<◌, length, IfOk, MatchResult, string_bytes};
ghost use Rattle.cql_lexer.specs.Mark.{marks};
ghost use Rattle.cql_tree.specs.Syntax.{leaf, day_leaf};
ghost use Rattle.cql_parser.specs.Machine.{ForWhole, run, after_sign, have_whole, open_slot, sign_slot, comma_sign, close_sign, text_slot, bound_slot, whole_slot};
ghost use Rattle.cql_tree.specs.Views.{number_of, bound_of};
ghost use Rattle.cql_parser.specs.inner.Descent.{IsStopped, ForSlot, want_here, pass_here, have_here, want_corner, want_pair, have_corner};

use crate::lookahead::{
    after_close, after_comma, after_name, after_number, after_open, after_sign, after_text,
};
use crate::node::{name_bound, number, text_bound};
use crate::stop::Stop;
use cql_lexer::Token;
use cql_tree::{Bound, Corner, Number};

/// What follows an opening parenthesis.
pub(crate) fn pass_open(tokens: &[Token]) -> Result<&[Token], Stop<'_>>
    ensures passes { MatchResult result
        (λ rest. (a : ForSlot) → run (want_here open_slot a) (marks tokens.now) ≡ run (pass_here a) (marks rest.now))
        (IsStopped (want_here open_slot) (marks tokens.now)) }
    ensures shorter { IfOk result (λ rest. length rest.now < length tokens.now) }
{
    match after_open(tokens) {
        Some(rest) => Ok(rest),
        None => Err(Stop::At(tokens)),
    }
}

/// What follows a closing parenthesis.
pub(crate) fn pass_close(tokens: &[Token]) -> Result<&[Token], Stop<'_>>
    ensures passes { MatchResult result
        (λ rest. (a : ForSlot) →
        run (want_here (sign_slot close_sign) a) (marks tokens.now) ≡ run (pass_here a) (marks rest.now))
        (IsStopped (want_here (sign_slot close_sign)) (marks tokens.now)) }
    ensures shorter { IfOk result (λ rest. length rest.now < length tokens.now) }
{
    match after_close(tokens) {
        Some(rest) => Ok(rest),
        None => Err(Stop::At(tokens)),
    }
}

/// What follows a comma.
pub(crate) fn pass_comma(tokens: &[Token]) -> Result<&[Token], Stop<'_>>
    ensures passes { MatchResult result
        (λ rest. (a : ForSlot) →
        run (want_here (sign_slot comma_sign) a) (marks tokens.now) ≡ run (pass_here a) (marks rest.now))
        (IsStopped (want_here (sign_slot comma_sign)) (marks tokens.now)) }
    ensures shorter { IfOk result (λ rest. length rest.now < length tokens.now) }
{
    match after_comma(tokens) {
        Some(rest) => Ok(rest),
        None => Err(Stop::At(tokens)),
    }
}

/// The place of a day's text, the text, and what follows it.
pub(crate) fn take_text(tokens: &[Token]) -> Result<(usize, &String, &[Token]), Stop<'_>>
    ensures takes { MatchResult result
        (λ r. (a : ForSlot) → run (want_here text_slot a) (marks tokens.now) ≡
        run (have_here a (leaf r.0 (day_leaf (string_bytes r.1.now)))) (marks r.2.now))
        (IsStopped (want_here text_slot) (marks tokens.now)) }
    ensures shorter { IfOk result (λ r. length r.2.now < length tokens.now) }
{
    match after_text(tokens) {
        Some(found) => Ok(found),
        None => Err(Stop::At(tokens)),
    }
}

/// An end of an interval, and what follows it.
pub(crate) fn take_bound(tokens: &[Token]) -> Result<(Bound, &[Token]), Stop<'_>>
    ensures takes { MatchResult result
        (λ r. (a : ForSlot) → run (want_here bound_slot a) (marks tokens.now) ≡
        run (have_here a (bound_of r.0)) (marks r.1.now))
        (IsStopped (want_here bound_slot) (marks tokens.now)) }
    ensures shorter { IfOk result (λ r. length r.1.now < length tokens.now) }
{
    if let Some((place, content, rest)) = after_text(tokens) {
        let bound = text_bound(place, content)?;
        return Ok((bound, rest));
    }
    match after_name(tokens) {
        Some((place, name, rest)) => {
            let bound = name_bound(place, name)?;
            Ok((bound, rest))
        }
        None => Err(Stop::At(tokens)),
    }
}

/// The number behind a sign, and what follows it.
pub(crate) fn take_digits(
    is_negative: bool,
    tokens: &[Token],
) -> Result<(Number, &[Token]), Stop<'_>>
    ensures takes { MatchResult result
        (λ r. (k : ForWhole) → run (after_sign is_negative k) (marks tokens.now) ≡
        run (have_whole k (number_of r.0)) (marks r.1.now))
        (IsStopped (after_sign is_negative) (marks tokens.now)) }
    ensures shorter { IfOk result (λ r. length r.1.now < length tokens.now) }
{
    match after_number(tokens) {
        Some((place, digits, rest)) => {
            let number = number(place, is_negative, digits)?;
            Ok((number, rest))
        }
        None => Err(Stop::At(tokens)),
    }
}

/// A number with its sign, and what follows it.
pub(crate) fn take_whole(tokens: &[Token]) -> Result<(Number, &[Token]), Stop<'_>>
    ensures takes { MatchResult result
        (λ r. (a : ForSlot) → run (want_here whole_slot a) (marks tokens.now) ≡
        run (have_here a (number_of r.0)) (marks r.1.now))
        (IsStopped (want_here whole_slot) (marks tokens.now)) }
    ensures shorter { IfOk result (λ r. length r.1.now < length tokens.now) }
{
    match after_sign(tokens) {
        Some((is_negative, after)) => take_digits(is_negative, after),
        None => take_digits(false, tokens),
    }
}

/// Two numbers, and what follows them.
pub(crate) fn take_corner(tokens: &[Token]) -> Result<(Corner, &[Token]), Stop<'_>>
    ensures takes { MatchResult result
        (λ r. (a : ForSlot) → run (want_corner a) (marks tokens.now) ≡ run (have_corner a r.0) (marks r.1.now))
        (IsStopped want_corner (marks tokens.now)) }
    ensures shorter { IfOk result (λ r. length r.1.now < length tokens.now) }
{
    let (x, after) = take_whole(tokens)?;
    let (y, rest) = take_whole(after)?;
    Ok((Corner { x, y }, rest))
}

/// Two numbers with a comma between them, and what follows them.
pub(crate) fn take_pair(tokens: &[Token]) -> Result<(Corner, &[Token]), Stop<'_>>
    ensures takes { MatchResult result
        (λ r. (a : ForSlot) → run (want_pair a) (marks tokens.now) ≡ run (have_corner a r.0) (marks r.1.now))
        (IsStopped want_pair (marks tokens.now)) }
    ensures shorter { IfOk result (λ r. length r.1.now < length tokens.now) }
{
    let (x, after) = take_whole(tokens)?;
    let after = pass_comma(after)?;
    let (y, rest) = take_whole(after)?;
    Ok((Corner { x, y }, rest))
}
