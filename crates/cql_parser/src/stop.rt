//! How the reading of a rule ends.

ghost use Rattle.std.specs.Prelude.{◌≡◌};
ghost use Rattle.cql_parser.specs.declared.stop.Stop.TheVariants.{Memory};

use cql_lexer::Token;
use cql_tree::Expression;
use std::alloc::{AllocError, AllocFailed};

/// Memory ran out, or no tree can come at the first of these tokens.
#[derive(Drop)]
pub enum Stop<'a> {
    /// Memory ran out.
    Memory,
    /// No filter can come once the first of these tokens is read.
    At(&'a [Token]),
}

/// A part that was read, and the tokens after it.
#[derive(Drop)]
pub struct Parsed<'a> {
    /// The part.
    pub tree: Box<Expression>,
    /// The tokens that no part contains yet.
    pub rest: &'a [Token],
}

impl From<AllocError> for Stop<'_> {
    ghost from_gives = { λ _ e. e ≡ Memory };

    fn from(_e: AllocError) -> Self {
        Stop::Memory
    }
}

impl<T: Drop> From<AllocFailed<T>> for Stop<'_> {
    ghost from_gives = { λ _ e. e ≡ Memory };

    fn from(_e: AllocFailed<T>) -> Self {
        Stop::Memory
    }
}
