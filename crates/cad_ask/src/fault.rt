//! Why a query is refused.

use cad_parameters::ParameterFault;
use cql_filter::{Cause, FilterFault};
use std::alloc::AllocError;
use thiserror::Error;

/// Why a query is refused. The faults are looked for in the order of their numbers.
#[derive(Clone, Copy, Debug, PartialEq, Eq, Error)]
pub enum AskFault {
    /// A parameter has an unknown name.
    #[error("a parameter has an unknown name")]
    Unknown,
    /// A parameter comes more than once.
    #[error("a parameter comes more than once")]
    Repeated,
    /// `limit` is no number from 1.
    #[error("the limit is no number from 1")]
    Limit,
    /// `datetime` is neither a moment nor an interval.
    #[error("the datetime is neither a moment nor an interval")]
    Datetime,
    /// `bbox` is no box.
    #[error("the bbox is no box")]
    Bbox,
    /// `filter-lang` is not `cql2-text`.
    #[error("the language of the filter is unknown")]
    FilterLang,
    /// `filter` is no filter of the collection: the cause, and the byte of the filter's text at which it occurs.
    #[error("the filter is not accepted")]
    Filter { place: usize, cause: Cause },
    /// `revision` is no number of 1 to 18 digits.
    #[error("the revision is no number of 1 to 18 digits")]
    Revision,
    /// `after` is no identifier.
    #[error("the identifier to start after is none")]
    After,
    /// Memory ran out, at any point.
    #[error("out of memory")]
    Memory,
}

impl AskFault {
    ghost use Rattle.std.specs.Prelude.{◌≡◌};
    ghost use Rattle.cad_ask.specs.Faults.{fault_number_and_name, fault_number, fault_name, fault_word};

    /// The number and the name.
    fn number_and_name(self) -> (u8, &'static str)
        ensures { (result.0, result.1.now) ≡ fault_number_and_name self }
    {
        match self {
            AskFault::Unknown => (1, "Unknown"),
            AskFault::Repeated => (2, "Repeated"),
            AskFault::Limit => (3, "Limit"),
            AskFault::Datetime => (4, "Datetime"),
            AskFault::Bbox => (5, "Bbox"),
            AskFault::FilterLang => (6, "FilterLang"),
            AskFault::Filter { place: _, cause: _ } => (7, "Filter"),
            AskFault::Revision => (8, "Revision"),
            AskFault::After => (9, "After"),
            AskFault::Memory => (10, "Memory"),
        }
    }

    /// The number by which programs may identify the fault: its place in the order of looking, from 1.
    pub fn number(&self) -> u8
        ensures { result ≡ fault_number self.now }
    {
        self.number_and_name().0
    }

    /// The name that programs print.
    pub fn name(&self) -> &'static str
        ensures { result.now ≡ fault_name self.now }
    {
        self.number_and_name().1
    }

    /// The word in the body of the refusal: if a parameter is wrong, its name.
    pub fn word(&self) -> &'static str
        ensures { result.now ≡ fault_word self.now }
    {
        match self {
            AskFault::Unknown => "unknown",
            AskFault::Repeated => "repeated",
            AskFault::Limit => "limit",
            AskFault::Datetime => "datetime",
            AskFault::Bbox => "bbox",
            AskFault::FilterLang => "filter-lang",
            AskFault::Filter { place: _, cause: _ } => "filter",
            AskFault::Revision => "revision",
            AskFault::After => "after",
            AskFault::Memory => "memory",
        }
    }
}

impl From<ParameterFault> for AskFault {
    ghost use Rattle.std.specs.Prelude.{◌≡◌};
    ghost use Rattle.cad_ask.specs.Faults.{of_parameter};

    ghost from_gives = { λ fault gives. gives ≡ of_parameter fault };

    fn from(fault: ParameterFault) -> AskFault {
        match fault {
            ParameterFault::Unknown => AskFault::Unknown,
            ParameterFault::Repeated => AskFault::Repeated,
            ParameterFault::Limit => AskFault::Limit,
            ParameterFault::Datetime => AskFault::Datetime,
            ParameterFault::Bbox => AskFault::Bbox,
            ParameterFault::FilterLang => AskFault::FilterLang,
            ParameterFault::Revision => AskFault::Revision,
            ParameterFault::After => AskFault::After,
        }
    }
}

impl From<AllocError> for AskFault {
    ghost use Rattle.std.specs.Prelude.{◌≡◌};
    ghost use Rattle.cad_ask.specs.declared.fault.AskFault.TheVariants.{Memory};

    ghost from_gives = { λ _ fault. fault ≡ Memory };

    fn from(_: AllocError) -> AskFault {
        AskFault::Memory
    }
}

impl From<FilterFault> for AskFault {
    ghost use Rattle.std.specs.Prelude.{◌≡◌};
    ghost use Rattle.cad_ask.specs.Faults.{of_filter};

    ghost from_gives = { λ fault gives. gives ≡ of_filter fault };

    fn from(fault: FilterFault) -> AskFault {
        match fault {
            FilterFault::Refused(cause) => AskFault::Filter {
                place: cause.place(),
                cause,
            },
            FilterFault::Memory => AskFault::Memory,
        }
    }
}
