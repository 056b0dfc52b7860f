//! From the tokens of a filter to its tree.
//!
//! [`parse`] reads a whole list of tokens by the grammar of CQL2 Text (OGC 21-065r2): the tokens of
//! `NOT area BETWEEN 5 AND 7` give `Not` over `Between`, those of `area >` the fault `EndOfFilter`
//! at byte 6, and those of `a = b = c` the fault `NotExpected` at byte 6. At most 64 parentheses
//! may be open at one time.
//!
//! - [`Tree`]: a filter, by its root; [`Expression`]: a filter or a part of one, each name, literal and keyword at its place.
//! - [`ParseFault`]: why tokens are not a filter; a [`GrammarFault`] is the first fault, with its place.
//! - [`laws`]: a list of tokens has one tree or one fault, and never both, and a tree's places ascend.
#![tactic(auto)]

mod descent;
mod fault;
pub mod laws;
mod literal;
mod lookahead;
mod node;
mod parser;
mod slot;
mod start;
mod stop;

pub use cql_tree::{Bound, Corner, Expression, Number, Operand, Operation, Ring, Tree};
pub use fault::{GrammarFault, ParseFault};
pub use parser::parse;
