//! Why tokens cannot be read as a filter.

ghost use Rattle.std.specs.Prelude.{◌≡◌};
ghost use Rattle.cql_parser.specs.Faults.{label_of, name_of, number_of, place_of};

use thiserror::Error;

/// What is wrong with the grammar of tokens. A place is a byte of the text.
#[derive(Clone, Copy, PartialEq, Eq, Debug, Error)]
pub enum GrammarFault {
    /// The parenthesis at the place is the 65th that is open at one time.
    #[error("more than 64 parentheses are open at byte {place}")]
    TooDeep { place: usize },
    /// The token at the place is the first after which no filter can come.
    #[error("the token at byte {place} is not expected")]
    NotExpected { place: usize },
    /// The tokens begin a filter and end before it does: the place is the text's length.
    #[error("the text ends at byte {place}, before the filter does")]
    EndOfFilter { place: usize },
}

/// Why tokens gave no tree.
#[derive(Clone, Copy, PartialEq, Eq, Debug, Error)]
pub enum ParseFault {
    /// The tokens are not a filter.
    #[error(transparent)]
    At(GrammarFault),
    /// Memory ran out. This says nothing of the tokens.
    #[error("out of memory")]
    Memory,
}

impl GrammarFault {
    /// The number and the name.
    fn number_and_name(self) -> (u8, &'static str)
        ensures number { result.0 ≡ (label_of self).number }
        ensures name { result.1.now ≡ (label_of self).name }
    {
        match self {
            GrammarFault::TooDeep { .. } => (1, "TooDeep"),
            GrammarFault::NotExpected { .. } => (2, "NotExpected"),
            GrammarFault::EndOfFilter { .. } => (3, "EndOfFilter"),
        }
    }

    /// The fault's number in the table of specs/Faults, from 1, by which programs can distinguish faults.
    pub fn number(&self) -> u8
        ensures { result ≡ (label_of self.now).number }
    {
        self.number_and_name().0
    }

    /// The name that programs print.
    pub fn name(&self) -> &'static str
        ensures { result.now ≡ (label_of self.now).name }
    {
        self.number_and_name().1
    }

    /// The byte of the text at which the fault is.
    pub fn place(&self) -> usize
        ensures { result ≡ (label_of self.now).place }
    {
        match self {
            GrammarFault::TooDeep { place }
            | GrammarFault::NotExpected { place }
            | GrammarFault::EndOfFilter { place } => *place,
        }
    }
}

impl ParseFault {
    /// The fault's number in the table of specs/Faults, from 1, by which programs can distinguish faults.
    pub fn number(&self) -> u8
        ensures { result ≡ number_of self.now }
    {
        match self {
            ParseFault::At(fault) => fault.number(),
            ParseFault::Memory => 4,
        }
    }

    /// The name that programs print.
    pub fn name(&self) -> &'static str
        ensures { result.now ≡ name_of self.now }
    {
        match self {
            ParseFault::At(fault) => fault.name(),
            ParseFault::Memory => "Memory",
        }
    }

    /// The byte of the text at which the fault is, or `None` if memory ran out.
    pub fn place(&self) -> Option<usize>
        ensures { result ≡ place_of self.now }
    {
        match self {
            ParseFault::At(fault) => Some(fault.place()),
            ParseFault::Memory => None,
        }
    }
}
