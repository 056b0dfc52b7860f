//! Why the office stops.

use cad_io::WriteFailed;
use thiserror::Error;

/// Why the office stops before its input ends.
#[derive(Clone, Copy, Debug, PartialEq, Eq, Error)]
pub enum OfficeFault {
    /// A read failed.
    #[error("a read failed")]
    Read,
    /// A write failed, or took nothing.
    #[error("a write failed")]
    Write,
    /// The maximum number of reads, 1,000,000, was made.
    #[error("too many reads")]
    TurnsSpent,
    /// The database refused a command, and not because it was out of memory.
    #[error("the database refused a command")]
    Register,
}

impl From<WriteFailed> for OfficeFault {
    ghost use Rattle.std.specs.Prelude.{◌≡◌};
    ghost use Rattle.cad_office.specs.declared.fault.OfficeFault.TheVariants.{Write};

    ghost from_gives = { λ _ e. e ≡ Write };

    fn from(_: WriteFailed) -> OfficeFault {
        OfficeFault::Write
    }
}

impl OfficeFault {
    ghost use Rattle.std.specs.Prelude.{◌≡◌};
    ghost use Rattle.cad_office.specs.OfficeFaults.{fault_number_and_name, fault_number, fault_name};

    /// The number and the name.
    fn number_and_name(self) -> (u8, &'static str)
        ensures { (result.0, result.1.now) ≡ fault_number_and_name self }
    {
        match self {
            OfficeFault::Read => (1, "Read"),
            OfficeFault::Write => (2, "Write"),
            OfficeFault::TurnsSpent => (3, "TurnsSpent"),
            OfficeFault::Register => (4, "Register"),
        }
    }

    /// The fault's number in the table of specs/OfficeFaults, from 1. Programs identify the fault by it.
    pub fn number(&self) -> u8
        ensures { result ≡ fault_number self.now }
    {
        self.number_and_name().0
    }

    /// The name that programs print.
    pub fn name(&self) -> &'static str
        ensures { result.now ≡ fault_name self.now }
    {
        self.number_and_name().1
    }
}
