//! Why a call of the register is refused.

ghost use Rattle.std.specs.Prelude.{◌≡◌};
ghost use Rattle.cad_versions.specs.Fault.{fault_number, fault_name};

use cad_day::Day;
use std::alloc::{AllocError, AllocFailed};
use thiserror::Error;

/// Why a call of the register is refused.
#[derive(Clone, Copy, Debug, PartialEq, Eq, Error)]
pub enum RegisterFault {
    /// Enter: the object was entered before.
    #[error("the object was entered before")]
    KnownObject,
    /// Amend, Retire: the object was never entered.
    #[error("the object was never entered")]
    UnknownObject,
    /// Amend: the body is of another class than the object.
    #[error("the body is of another class than the object")]
    OtherClass,
    /// Amend from a day that is not after the first day of the open version, or Retire on a day before it. The fault carries that first
    /// day.
    #[error("the day comes too early for the open version")]
    DayNotAfter(Day),
    /// Amend, Retire: no version of the object is open.
    #[error("no version of the object is open")]
    Retired,
    /// The body names a unit or a party that was never entered, or an object of another class.
    #[error("the body names what was not entered")]
    UnknownReference,
    /// The register has the maximum number of versions, 2,147,483,647.
    #[error("there is no room for one version more")]
    Full,
    /// A stored row breaks a rule of its type.
    #[error("a stored row is no version of the register")]
    Damaged {
        /// The object, as it is stored in the row.
        object: i64,
        /// The number, as it is stored in the row.
        number: i64,
    },
    /// The database is not a register of this format, or its rows show no command of some revision, or it holds 4,294,967,294 commands and
    /// takes no more.
    #[error("the database is no register of this form")]
    NotARegister,
    /// The database refused a statement, and not because it was out of memory.
    #[error("the database refused a statement")]
    Store,
    /// Out of memory. A ledger in memory also refuses so once it holds as many commands as it can count.
    #[error("out of memory")]
    Memory,
    /// The revision is above the current one.
    #[error("the revision is above the one in force")]
    UnknownRevision,
}

impl From<AllocError> for RegisterFault {
    ghost use Rattle.std.specs.Prelude.{◌≡◌};
    ghost use Rattle.cad_versions.specs.declared.fault.RegisterFault.TheVariants.{Memory};

    ghost from_gives = { λ _ e. e ≡ Memory };

    fn from(_: AllocError) -> RegisterFault {
        RegisterFault::Memory
    }
}

impl<T: Drop> From<AllocFailed<T>> for RegisterFault {
    ghost use Rattle.std.specs.Prelude.{◌≡◌};
    ghost use Rattle.cad_versions.specs.declared.fault.RegisterFault.TheVariants.{Memory};

    ghost from_gives = { λ _ e. e ≡ Memory };

    fn from(_: AllocFailed<T>) -> RegisterFault {
        RegisterFault::Memory
    }
}

impl RegisterFault {
    fn number_and_name(&self) -> (u8, &'static str)
        ensures { (result.0 ≡ fault_number self.now) × (result.1.now ≡ fault_name self.now) }
    {
        match self {
            RegisterFault::KnownObject => (1, "KnownObject"),
            RegisterFault::UnknownObject => (2, "UnknownObject"),
            RegisterFault::OtherClass => (3, "OtherClass"),
            RegisterFault::DayNotAfter(_) => (4, "DayNotAfter"),
            RegisterFault::Retired => (5, "Retired"),
            RegisterFault::UnknownReference => (6, "UnknownReference"),
            RegisterFault::Full => (7, "Full"),
            RegisterFault::Damaged { .. } => (8, "Damaged"),
            RegisterFault::NotARegister => (9, "NotARegister"),
            RegisterFault::Store => (10, "Store"),
            RegisterFault::Memory => (11, "Memory"),
            RegisterFault::UnknownRevision => (12, "UnknownRevision"),
        }
    }

    /// The fault's number in the table of specs/Fault, from 1. Programs identify the fault by it.
    pub fn number(&self) -> u8
        ensures { result ≡ fault_number self.now }
    {
        self.number_and_name().0
    }

    /// The name that programs print.
    pub fn name(&self) -> &'static str
        ensures { result.now ≡ fault_name self.now }
    {
        self.number_and_name().1
    }
}
