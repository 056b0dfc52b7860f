//! Texts as the filter language sees them: as lists of code points.
//!
//! - [`like`]: whether a text is like a pattern. `C%1` is like `C\%_`, and `CC1` is not.
//! - [`like_folded`]: the same of a text with its case folded
//! - [`fold`]: a text with its case folded: `Straße` and `STRASSE` both become `strasse`.
//! - [`compare`]: the order of texts, by code points.
//! - [`compare_folded`]: the same of a text with its case folded, without memory for it.
//! - [`like_range`]: the range of the texts that begin with a pattern's front
//! - [`first_folded`], [`last_folded`]: the first and the last character of a text with its case folded
//! - [`first_literal`], [`last_literal`]: the characters with which each text begins and ends that is like a pattern
//! - [`hash_of`], [`hash_of_folded`]: the hash of a text, by which most texts are told apart, and that of a text with its case folded
//! - [`laws`]: what holds of patterns, folding and the order, beyond what each call says.
#![tactic(auto)]

mod ends;
mod folding;
mod front;
mod hash;
pub mod laws;
mod order;
mod pattern;

pub use ends::{first_folded, first_literal, last_folded, last_literal};
pub use folding::fold;
pub use front::{LikeRange, like_range};
pub use hash::{hash_of, hash_of_folded};
pub use order::{compare, compare_folded};
pub use pattern::{like, like_folded};
