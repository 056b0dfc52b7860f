//! From the text of a CQL2 filter to its tokens, each with the byte at which it begins.
//!
//! `tokens(alloc, "area >= 1.5e3")` gives `Name("area")` at 0, `Compare(AtLeast)` at 5 and
//! `Number("1.5e3")` at 8, with 13 as the text's end. `tokens(alloc, "area > 'x")` gives
//! `LexFault::At(SpellingFault::Unterminated { place: 7 })`.
//!
//! - `tokens`: the tokens of a text, or its one fault.
//! - `Tokens`, `Token`, `Kind`: what a token is, and where it begins. `Keyword`, `Comparison` and
//!   `SpatialRelation` name the fixed ones.
//! - `LexFault`: why a text has no tokens; a `SpellingFault` has its place.
//! - `laws`: what holds of every text: it has one list of tokens or one fault, and never both.
#![tactic(auto)]

mod class;
mod fault;
mod keyword;
pub mod laws;
mod lex;
mod name;
mod number;
mod scan;
mod symbol;
mod text;
mod token;

pub use fault::{LexFault, SpellingFault};
pub use lex::tokens;
pub use token::{Comparison, Keyword, Kind, SpatialRelation, Token, Tokens};
