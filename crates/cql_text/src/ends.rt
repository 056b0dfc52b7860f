//! The characters with which folded texts begin and end, and those with which each text does that is like a pattern.

ghost use Rattle.std.specs.Prelude.{◌≡◌, ◌∷◌, ◌++◌, ℕ, List, [], true, chars, IfSome, MatchOption};
ghost use Rattle.ucd_case.specs.CaseFolding.{full_fold};
ghost use Rattle.caseless.specs.Caseless.{default_case_fold};
ghost use Rattle.cql_text.specs.Ends.{BeginsExactly, BeginsWith, EndsExactly, EndsWith};
ghost use Rattle.cql_text.specs.Patterns.{Piece, like_test, pieces};
ghost use Rattle.cql_text.specs.inner.Parts.{piece_of};

use crate::pattern::{Part, first_part};
use caseless::Caseless;
use ucd_case::full_folding;

/// The first character of the text with its case folded. No memory is taken.
pub fn first_folded(text: &str) -> Option<char>
    ensures { MatchOption result (default_case_fold (chars text.now) ≡ []) (λ c. BeginsWith c (default_case_fold (chars text.now))) }
{
    let mut all = text.chars().default_case_fold();
    all.next()
}

/// The last character of the text with its case folded. No memory is taken.
pub fn last_folded(text: &str) -> Option<char>
    ensures { MatchOption result (default_case_fold (chars text.now) ≡ []) (λ c. EndsWith c (default_case_fold (chars text.now))) }
{
    match last_char(text) {
        None => None,
        Some((_, last)) => Some(last_of_folded(last)),
    }
}

// The last character of what a character is folded to. One that has no row in the table is folded to itself.
fn last_of_folded(character: char) -> char
    ensures { EndsWith result (full_fold character) }
{
    match full_folding(character) {
        [.., last] => *last,
        [] => character,
    }
}

// The text before the last character, and that character.
fn last_char(text: &str) -> Option<(&str, char)>
    ensures { MatchOption result (chars text.now ≡ []) (λ r. chars text.now ≡ chars r.0.now ++ r.1 ∷ []) }
{
    let mut all = text.chars();
    match all.next_back() {
        None => None,
        Some(last) => Some((all.as_str(), last)),
    }
}

/// The character with which each text begins that is like the pattern, if the pattern begins with one. No memory is taken.
pub fn first_literal(pattern: &str) -> Option<char>
    ensures part { MatchOption result ((c : ℕ) → BeginsExactly c (pieces (chars pattern.now)) → ⊥) (λ c. BeginsExactly c (pieces (chars pattern.now))) }
    ensures alike { IfSome result (λ c. (text : List ℕ) → like_test (chars pattern.now) text ≡ true → BeginsWith c text) }
{
    match first_part(pattern) {
        Some((Part::Exactly(first), _)) => Some(first),
        _ => None,
    }
}

/// The character with which each text ends that is like the pattern, if the pattern ends with one. No memory is taken.
pub fn last_literal(pattern: &str) -> Option<char>
    ensures part { MatchOption result ((c : ℕ) → EndsExactly c (pieces (chars pattern.now)) → ⊥) (λ c. EndsExactly c (pieces (chars pattern.now))) }
    ensures alike { IfSome result (λ c. (text : List ℕ) → like_test (chars pattern.now) text ≡ true → EndsWith c text) }
{
    match last_part(pattern) {
        Some(Part::Exactly(last)) => Some(last),
        _ => None,
    }
}

// The last part of a pattern.
fn last_part(pattern: &str) -> Option<Part>
    ensures { MatchOption result (pieces (chars pattern.now) ≡ []) (λ part. (front : List Piece) × (pieces (chars pattern.now) ≡ front ++ piece_of part ∷ [])) }
{
    let mut last = None;
    let mut left = pattern;
    'parts: while let Some((part, after)) = first_part(left) {
        last = Some(part);
        left = after;
    }
    last
}
