//! Why a text is not a filter.

ghost use Rattle.std.specs.Prelude.{◌≡◌};
ghost use Rattle.cql_filter.specs.Causes.{name_of, place_of};

use cql_lexer::{LexFault, SpellingFault};
use cql_parser::{GrammarFault, ParseFault};
use cql_types::{Fault, TypeFault};
use thiserror::Error;

/// The first fault of a text.
#[derive(Clone, Copy, PartialEq, Eq, Debug, Error)]
pub enum Cause {
    /// The text is misspelt.
    #[error(transparent)]
    OfLexer(SpellingFault),
    /// Its tokens are not a filter.
    #[error(transparent)]
    OfParser(GrammarFault),
    /// A part of its tree is misused.
    #[error("a part of the filter is misused")]
    OfTypes(Fault),
}

/// Why a text gave no filter.
#[derive(Clone, Copy, PartialEq, Eq, Debug, Error)]
pub enum FilterFault {
    /// The text is not a filter of the collection.
    #[error(transparent)]
    Refused(Cause),
    /// Memory ran out. This says nothing of the text.
    #[error("out of memory")]
    Memory,
}

impl Cause {
    /// The name that programs print.
    pub fn name(&self) -> &'static str
        ensures { result.now ≡ name_of self.now }
    {
        match self {
            Cause::OfLexer(fault) => fault.name(),
            Cause::OfParser(fault) => fault.name(),
            Cause::OfTypes(fault) => fault.cause.name(),
        }
    }

    /// The byte of the text at which the fault is.
    pub fn place(&self) -> usize
        ensures { result ≡ place_of self.now }
    {
        match self {
            Cause::OfLexer(fault) => fault.place(),
            Cause::OfParser(fault) => fault.place(),
            Cause::OfTypes(fault) => fault.place,
        }
    }
}

impl From<LexFault> for FilterFault {
    ghost use Rattle.cql_filter.specs.Causes.{of_lexer};

    ghost from_gives = { λ fault gives. gives ≡ of_lexer fault };

    fn from(fault: LexFault) -> FilterFault {
        match fault {
            LexFault::At(fault) => FilterFault::Refused(Cause::OfLexer(fault)),
            LexFault::Memory => FilterFault::Memory,
        }
    }
}

impl From<ParseFault> for FilterFault {
    ghost use Rattle.cql_filter.specs.Causes.{of_parser};

    ghost from_gives = { λ fault gives. gives ≡ of_parser fault };

    fn from(fault: ParseFault) -> FilterFault {
        match fault {
            ParseFault::At(fault) => FilterFault::Refused(Cause::OfParser(fault)),
            ParseFault::Memory => FilterFault::Memory,
        }
    }
}

impl From<TypeFault> for FilterFault {
    ghost use Rattle.cql_filter.specs.Causes.{of_types};

    ghost from_gives = { λ fault gives. gives ≡ of_types fault };

    fn from(fault: TypeFault) -> FilterFault {
        match fault {
            TypeFault::At(fault) => FilterFault::Refused(Cause::OfTypes(fault)),
            TypeFault::Memory => FilterFault::Memory,
        }
    }
}
