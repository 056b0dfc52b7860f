//! Why a text does not ask for any days.

ghost use Rattle.std.specs.Prelude.{◌≡◌};
ghost use Rattle.cad_day.specs.Faults.{fault_number_and_name, fault_number, fault_name};

use thiserror::Error;

/// Why a text does not ask for any days.
#[derive(Clone, Copy, PartialEq, Eq, Debug, Error)]
pub enum DatetimeFault {
    /// A moment in the text is neither a day nor an instant.
    #[error("not a date")]
    NotADate,
    /// The last day lies before the first.
    #[error("the last day lies before the first")]
    EndsTurned,
    /// Out of memory. [`asked`](crate::asked) never returns it; callers that allocate memory do.
    #[error("out of memory")]
    Memory,
}

impl DatetimeFault {
    /// The number and the name.
    fn number_and_name(self) -> (u8, &'static str)
        ensures { (result.0, result.1.now) ≡ fault_number_and_name self }
    {
        match self {
            DatetimeFault::NotADate => (1, "NotADate"),
            DatetimeFault::EndsTurned => (2, "EndsTurned"),
            DatetimeFault::Memory => (3, "Memory"),
        }
    }

    /// The fault's number in the table of specs/Faults, from 1. Programs identify the fault by it.
    pub fn number(&self) -> u8
        ensures { result ≡ fault_number self.now }
    {
        self.number_and_name().0
    }

    /// The name that programs print.
    pub fn name(&self) -> &'static str
        ensures { result.now ≡ fault_name self.now }
    {
        self.number_and_name().1
    }
}
