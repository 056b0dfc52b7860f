//! The front of a pattern, and the range of the texts that begin with a front.

ghost use Rattle.std.specs.Prelude.{◌≡◌, ◌∷◌, chars, IfOk, MatchOption, option_map};
ghost use Rattle.cql_text.specs.Fronts.{IsFrontOf, IsFrontRange, IsLikeRange, NoneExact, is_open, next_front, next_scalar, text_of};
ghost use Rattle.cql_text.specs.Patterns.{exactly, pieces};

use crate::pattern::{Part, after_any, first_part};
use std::alloc::{AllocError, Global};

// The characters that a pattern begins with, and whether only parts that match any number follow.
#[derive(Drop)]
struct FixedFront {
    text: String,
    is_alone: bool,
}

/// The texts from `low` on and, if there is an `end`, below it: those that begin with `low`.
#[derive(Drop)]
pub struct LikeRange {
    /// The front of the pattern, which is the first text of the range.
    pub low: String,
    /// The first text behind the range; without such a text the range has no end.
    pub end: Option<String>,
    /// Each of them is like the pattern.
    pub is_exact: bool,
}

/// The range of the texts that begin with the pattern's front, the characters before its first `%` or `_`. Each text that is
/// like the pattern lies in it: of `A%` and of `A_1` it is from `A` to below `B`.
pub fn like_range(alloc: Global, pattern: &str) -> Result<LikeRange, AllocError>
    ensures { IfOk result (λ r. IsLikeRange (chars pattern.now) (text_of r.low) (option_map text_of r.end) r.is_exact) }
{
    let front = fixed_front(alloc, pattern)?;
    let end = end_of_front(alloc, front.text.as_str())?;
    Ok(LikeRange {
        low: front.text,
        end,
        is_exact: front.is_alone,
    })
}

fn fixed_front(alloc: Global, pattern: &str) -> Result<FixedFront, AllocError>
    ensures { IfOk result (λ f. IsFrontOf (pieces (chars pattern.now)) (text_of f.text) f.is_alone) }
{
    let mut text = String::new(alloc);
    let mut left = pattern;
    'exact: while let Some((c, after)) = exact_part(left) {
        text.push(c)?;
        left = after;
    }
    let is_alone = is_only_any(left);
    Ok(FixedFront { text, is_alone })
}

// The character of a first part that matches this character alone, and the pattern after it.
fn exact_part(pattern: &str) -> Option<(char, &str)>
    ensures { MatchOption result (NoneExact (pieces (chars pattern.now))) (λ r. pieces (chars pattern.now) ≡ exactly r.0 ∷ pieces (chars r.1.now)) }
{
    match first_part(pattern) {
        Some((Part::Exactly(c), after)) => Some((c, after)),
        _ => None,
    }
}

// Whether a pattern consists of parts that match any number, at least one.
fn is_only_any(pattern: &str) -> bool
    ensures { result ≡ is_open (pieces (chars pattern.now)) }
{
    let Some(after) = after_any(pattern) else {
        return false;
    };
    let mut left = after;
    'any: while let Some(after) = after_any(left) {
        left = after;
    }
    first_part(left).is_none()
}

// The least text above all that begin with the front, or `None` if there is no such text.
fn end_of_front(alloc: Global, front: &str) -> Result<Option<String>, AllocError>
    ensures { IfOk result (λ end. IsFrontRange (chars front.now) (option_map text_of end)) }
{
    let end = after_front(alloc, front)?;
    Ok(end)
}

fn after_front(alloc: Global, front: &str) -> Result<Option<String>, AllocError>
    ensures { IfOk result (λ end. option_map text_of end ≡ next_front (chars front.now)) }
{
    let mut end = String::from_str(alloc, front)?;
    'last: while let Some(last) = end.pop() {
        if let Some(next) = next_char(last) {
            end.push(next)?;
            return Ok(Some(end));
        }
    }
    Ok(None)
}

// The next character, past the gap of the surrogates.
fn next_char(c: char) -> Option<char>
    ensures { result ≡ next_scalar c }
{
    match c {
        '\u{D7FF}' => Some('\u{E000}'),
        '\u{10FFFF}' => None,
        _ => char::from_u32(u32::from(c) + 1),
    }
}
