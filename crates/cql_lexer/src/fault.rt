//! Why a text has no tokens.

ghost use Rattle.std.specs.Prelude.{◌≡◌};
ghost use Rattle.cql_lexer.specs.Faults.{label_of, name_of, number_of, place_of};
ghost use Rattle.cql_lexer.specs.declared.fault.LexFault.TheVariants.{Memory};

use crate::token::Token;
use std::alloc::{AllocError, AllocFailed};
use thiserror::Error;

/// What is wrong with the spelling of a text. A place is a byte of the text.
#[derive(Clone, Copy, PartialEq, Eq, Debug, Error)]
pub enum SpellingFault {
    /// The quote at the place is never closed.
    #[error("the quote at byte {place} is never closed")]
    Unterminated { place: usize },
    /// The character at the place begins no token.
    #[error("the character at byte {place} begins no token")]
    StrangeCharacter { place: usize },
    /// The text has more than 8,192 bytes: the place is 8,192.
    #[error("the text goes on at byte {place}, and no more are read")]
    TooLong { place: usize },
    /// The text has more than 2,000 tokens: the place is that of the next one.
    #[error("a token begins at byte {place}, and no more are read")]
    TooMany { place: usize },
}

/// Why a text gave no tokens.
#[derive(Clone, Copy, PartialEq, Eq, Debug, Error)]
pub enum LexFault {
    /// The text is misspelt.
    #[error(transparent)]
    At(SpellingFault),
    /// Memory ran out. This says nothing of the text.
    #[error("out of memory")]
    Memory,
}

impl SpellingFault {
    /// The number and the name.
    fn number_and_name(self) -> (u8, &'static str)
        ensures number { result.0 ≡ (label_of self).number }
        ensures name { result.1.now ≡ (label_of self).name }
    {
        match self {
            SpellingFault::Unterminated { .. } => (1, "Unterminated"),
            SpellingFault::StrangeCharacter { .. } => (2, "StrangeCharacter"),
            SpellingFault::TooLong { .. } => (3, "TooLong"),
            SpellingFault::TooMany { .. } => (4, "TooMany"),
        }
    }

    /// The fault's number in the table of specs/Faults, from 1, by which programs can distinguish faults.
    pub fn number(&self) -> u8
        ensures { result ≡ (label_of self.now).number }
    {
        self.number_and_name().0
    }

    /// The name that programs print.
    pub fn name(&self) -> &'static str
        ensures { result.now ≡ (label_of self.now).name }
    {
        self.number_and_name().1
    }

    /// The byte of the text at which the fault is.
    pub fn place(&self) -> usize
        ensures { result ≡ (label_of self.now).place }
    {
        match self {
            SpellingFault::Unterminated { place }
            | SpellingFault::StrangeCharacter { place }
            | SpellingFault::TooLong { place }
            | SpellingFault::TooMany { place } => *place,
        }
    }
}

impl LexFault {
    /// The fault's number in the table of specs/Faults, from 1, by which programs can distinguish faults.
    pub fn number(&self) -> u8
        ensures { result ≡ number_of self.now }
    {
        match self {
            LexFault::At(fault) => fault.number(),
            LexFault::Memory => 5,
        }
    }

    /// The name that programs print.
    pub fn name(&self) -> &'static str
        ensures { result.now ≡ name_of self.now }
    {
        match self {
            LexFault::At(fault) => fault.name(),
            LexFault::Memory => "Memory",
        }
    }

    /// The byte of the text at which the fault is, or `None` if memory ran out.
    pub fn place(&self) -> Option<usize>
        ensures { result ≡ place_of self.now }
    {
        match self {
            LexFault::At(fault) => Some(fault.place()),
            LexFault::Memory => None,
        }
    }
}

impl From<AllocError> for LexFault {
    ghost from_gives = { λ _ e. e ≡ Memory };

    fn from(_: AllocError) -> LexFault {
        LexFault::Memory
    }
}

impl From<AllocFailed<Token>> for LexFault {
    ghost from_gives = { λ _ e. e ≡ Memory };

    fn from(_: AllocFailed<Token>) -> LexFault {
        LexFault::Memory
    }
}
