//! Why the program ends before its last answer.

use cad_office::OfficeFault;
use std::alloc::AllocFailed;
use std::io::Error;

/// The status if the input cannot be read, or an answer cannot be printed.
const NOT_PRINTED: u8 = 100;

/// Why the program ends before its last answer.
#[derive(Drop)]
pub(crate) enum Stop {
    /// The fault of the office, or of a dry run.
    Office(OfficeFault),
    /// The input cannot be read, or an answer cannot be printed.
    NotPrinted,
}

impl Stop {
    /// The status of the program.
    pub(crate) fn status(&self) -> u8 {
        match self {
            Stop::Office(fault) => fault.number(),
            Stop::NotPrinted => NOT_PRINTED,
        }
    }
}

impl From<OfficeFault> for Stop {
    fn from(fault: OfficeFault) -> Stop {
        Stop::Office(fault)
    }
}

impl From<Error> for Stop {
    fn from(_error: Error) -> Stop {
        Stop::NotPrinted
    }
}

impl<T: Drop> From<AllocFailed<T>> for Stop {
    fn from(_refused: AllocFailed<T>) -> Stop {
        Stop::NotPrinted
    }
}
