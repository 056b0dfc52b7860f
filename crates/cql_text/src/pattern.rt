//! LIKE, in one walk that remembers one place to return to.

ghost use Rattle.std.specs.Prelude.{◌≡◌, ◌↔◌, ◌∷◌, ℕ, [], true, false, chars, IfOk, MatchOption, IsTrue};
ghost use Rattle.caseless.specs.Caseless.{default_case_fold};
ghost use Rattle.cql_text.specs.Ends.{BeginsExactly, BeginsWith, EndsExactly, EndsWith};
ghost use Rattle.cql_text.specs.Patterns.{Advances, BeginsPlain, Stops, any, is_like, like_test, pieces, piece_takes, some_end};
ghost use Rattle.cql_text.specs.Likeness.{IsLike};
ghost use Rattle.cql_text.specs.inner.Parts.{piece_of};

use crate::ends::{first_folded, first_literal, last_folded, last_literal};
use crate::folding::fold;
use std::alloc::{AllocError, Global};

// One part of a pattern: it matches any number of characters, any one, or exactly that one.
#[derive(Clone, Copy)]
pub(crate) enum Part {
    Any,
    One,
    Exactly(char),
}

/// Whether the whole text is like the pattern: `%` matches any number of characters, `_` matches one, `\` makes the character after it
/// match itself, and a last `\` matches itself. No memory is taken.
#[tactic(auto, using(crate::proofs::LikenessLemmas::tells))]
pub fn like(text: &str, pattern: &str) -> bool
    ensures meaning { IsTrue result ↔ IsLike (chars pattern.now) (chars text.now) }
    ensures test { result ≡ like_test (chars pattern.now) (chars text.now) }
{
    is_whole_like(text, pattern)
}

/// Whether the text with its case folded is like the pattern. A text that begins or ends with another character than the pattern is not
/// folded as a whole. An error means out of memory.
pub fn like_folded(alloc: Global, text: &str, pattern: &str) -> Result<bool, AllocError>
    ensures { IfOk result (λ b. b ≡ like_test (chars pattern.now) (default_case_fold (chars text.now))) }
{
    if begins_otherwise(text, pattern) || ends_otherwise(text, pattern) {
        return Ok(false);
    }
    let folded = fold(alloc, text)?;
    Ok(like(folded.as_str(), pattern))
}

// Whether the pattern begins with a character, and the folded text does not.
fn begins_otherwise(text: &str, pattern: &str) -> bool
    ensures told { IsTrue result ↔ ((c : ℕ) × BeginsExactly c (pieces (chars pattern.now)) × (BeginsWith c (default_case_fold (chars text.now)) → ⊥)) }
    ensures unlike { result ≡ true → like_test (chars pattern.now) (default_case_fold (chars text.now)) ≡ false }
{
    let Some(first) = first_literal(pattern) else {
        return false;
    };
    match first_folded(text) {
        None => true,
        Some(own) => own != first,
    }
}

// Whether the pattern ends with a character, and the folded text does not.
fn ends_otherwise(text: &str, pattern: &str) -> bool
    ensures told { IsTrue result ↔ ((c : ℕ) × EndsExactly c (pieces (chars pattern.now)) × (EndsWith c (default_case_fold (chars text.now)) → ⊥)) }
    ensures unlike { result ≡ true → like_test (chars pattern.now) (default_case_fold (chars text.now)) ≡ false }
{
    let Some(last) = last_literal(pattern) else {
        return false;
    };
    match last_folded(text) {
        None => true,
        Some(own) => own != last,
    }
}

// Up to the first part that matches any number, each part takes one character.
fn is_whole_like(text: &str, pattern: &str) -> bool
    ensures { result ≡ is_like (pieces (chars pattern.now)) (chars text.now) }
{
    let mut rest = text;
    let mut left = pattern;
    'front: loop {
        if let Some(after) = after_any(left) {
            return is_some_end_like(rest, after);
        }
        let Some((after, more)) = advance(left, rest) else {
            return is_over(left, rest);
        };
        left = after;
        rest = more;
    }
}

// After a part that matches any number: `again` and `from` are where the walk returns to.
fn is_some_end_like(text: &str, pattern: &str) -> bool
    ensures { result ≡ some_end (is_like (pieces (chars pattern.now))) (chars text.now) }
{
    let mut again = pattern;
    let mut from = text;
    let mut left = pattern;
    let mut rest = text;
    'walk: loop {
        if let Some(after) = after_any(left) {
            again = after;
            from = rest;
            left = after;
        } else if let Some((after, more)) = advance(left, rest) {
            left = after;
            rest = more;
        } else {
            if is_over(left, rest) {
                return true;
            }
            let Some((_, more)) = first_char(from) else {
                return false;
            };
            from = more;
            left = again;
            rest = more;
        }
    }
}

// Whether nothing is left on either side, when the walk can go no further.
fn is_over(pattern: &str, text: &str) -> bool
    requires plain { BeginsPlain (pieces (chars pattern.now)) }
    requires stops { Stops (pieces (chars pattern.now)) (chars text.now) }
    ensures { result ≡ is_like (pieces (chars pattern.now)) (chars text.now) }
{
    first_part(pattern).is_none() && first_char(text).is_none()
}

// The pattern after a part that matches any number.
pub(crate) fn after_any(pattern: &str) -> Option<&str>
    ensures { MatchOption result (BeginsPlain (pieces (chars pattern.now))) (λ after. pieces (chars pattern.now) ≡ any ∷ pieces (chars after.now)) }
{
    match first_part(pattern) {
        Some((Part::Any, after)) => Some(after),
        _ => None,
    }
}

// The rest of both after the first part has taken the first character.
fn advance<'a>(pattern: &'a str, text: &'a str) -> Option<(&'a str, &'a str)>
    requires { BeginsPlain (pieces (chars pattern.now)) }
    ensures { MatchOption result (Stops (pieces (chars pattern.now)) (chars text.now)) (λ r. Advances (pieces (chars pattern.now)) (chars text.now) (pieces (chars r.0.now)) (chars r.1.now)) }
{
    let (part, after) = first_part(pattern)?;
    let (first, more) = first_char(text)?;
    if takes(part, first) {
        Some((after, more))
    } else {
        None
    }
}

fn takes(part: Part, c: char) -> bool
    ensures { result ≡ piece_takes (piece_of part) c }
{
    match part {
        Part::Any => false,
        Part::One => true,
        Part::Exactly(d) => c == d,
    }
}

// The first character, and the text after it.
fn first_char(text: &str) -> Option<(char, &str)>
    ensures { MatchOption result (chars text.now ≡ []) (λ r. chars text.now ≡ r.0 ∷ chars r.1.now) }
{
    let mut all = text.chars();
    match all.next() {
        None => None,
        Some(first) => Some((first, all.as_str())),
    }
}

// The first part of a pattern, and the pattern after it.
pub(crate) fn first_part(pattern: &str) -> Option<(Part, &str)>
    ensures { MatchOption result (pieces (chars pattern.now) ≡ []) (λ r. pieces (chars pattern.now) ≡ piece_of r.0 ∷ pieces (chars r.1.now)) }
{
    let (first, after) = first_char(pattern)?;
    match first {
        '%' => Some((Part::Any, after)),
        '_' => Some((Part::One, after)),
        '\\' => match first_char(after) {
            None => Some((Part::Exactly('\\'), after)),
            Some((next, after)) => Some((Part::Exactly(next), after)),
        },
        _ => Some((Part::Exactly(first), after)),
    }
}
