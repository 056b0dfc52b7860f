//! The order of texts.

ghost use Rattle.std.specs.Prelude.{◌≡◌, chars};
ghost use Rattle.caseless.specs.Caseless.{default_case_fold};
ghost use Rattle.cql_text.specs.Order.{text_cmp};

use caseless::Caseless;
use std::cmp::Ordering;

/// Compares by code points: the first ones that differ decide; if none differ, the shorter text comes first. No memory is taken.
#[tactic(auto, using(crate::specs::CodePoints::bytes_cmp))]
pub fn compare(left: &str, right: &str) -> Ordering
    ensures { result ≡ text_cmp (chars left.now) (chars right.now) }
{
    left.cmp(right)
}

/// Compares the text with its case folded and the other text, by code points. The text is folded up to the first code point that decides.
/// No memory is taken.
pub fn compare_folded(text: &str, other: &str) -> Ordering
    ensures { result ≡ text_cmp (default_case_fold (chars text.now)) (chars other.now) }
{
    text.chars().default_case_fold().cmp(other.chars())
}
