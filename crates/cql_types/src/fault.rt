//! Why a tree is not a filter.

ghost use Rattle.std.specs.Prelude.{◌≡◌, Some, None};
ghost use Rattle.cql_types.specs.declared.fault.TypeFault.TheVariants.{Memory};
ghost use Rattle.cql_types.specs.Faults.{fault_row, fault_place};

use std::alloc::{AllocError, AllocFailed};
use thiserror::Error;

/// What is wrong with a part of a tree.
#[derive(Clone, Copy, PartialEq, Eq, Debug)]
pub enum Misuse {
    /// The collection has no property of that name.
    UnknownProperty,
    /// The part is of another kind than its node needs.
    WrongKind,
    /// The text names no day of the calendar.
    NotADate,
    /// The number has an exponent, or a fraction other than zeros.
    NotWhole,
    /// The number is outside of 64 bits.
    NumberTooLarge,
    /// The numbers do not make a point, a region or a box.
    BadShape,
    /// The last day of an interval lies before the first.
    EndsTurned,
}

/// What is wrong, and the place of the part.
#[derive(Clone, Copy, PartialEq, Eq, Debug)]
pub struct Fault {
    /// The byte of the text at which the part begins.
    pub place: usize,
    /// What is wrong with it.
    pub cause: Misuse,
}

/// Why a tree is not a filter.
#[derive(Clone, Copy, PartialEq, Eq, Debug, Error)]
pub enum TypeFault {
    /// A part of the tree is misused.
    #[error("a part of the filter is misused")]
    At(Fault),
    /// Memory ran out.
    #[error("out of memory")]
    Memory,
}

impl From<AllocError> for TypeFault {
    ghost from_gives = { λ _ e. e ≡ Memory };

    fn from(_: AllocError) -> TypeFault {
        TypeFault::Memory
    }
}

impl<T: Drop> From<AllocFailed<T>> for TypeFault {
    ghost from_gives = { λ _ e. e ≡ Memory };

    fn from(_: AllocFailed<T>) -> TypeFault {
        TypeFault::Memory
    }
}

impl TypeFault {
    fn row(&self) -> (u8, &'static str)
        ensures number { result.0 ≡ (fault_row self.now).0 }
        ensures name { result.1.now ≡ (fault_row self.now).1 }
    {
        match self {
            TypeFault::At(fault) => fault.cause.row(),
            TypeFault::Memory => (8, "Memory"),
        }
    }

    /// The fault's number in the table of specs/Faults, from 1, by which programs can distinguish faults.
    pub fn number(&self) -> u8
        ensures { result ≡ (fault_row self.now).0 }
    {
        self.row().0
    }

    /// The name that programs print.
    pub fn name(&self) -> &'static str
        ensures { result.now ≡ (fault_row self.now).1 }
    {
        self.row().1
    }

    /// The byte of the text at which the misused part begins; `None` if memory ran out.
    pub fn place(&self) -> Option<usize>
        ensures { result ≡ fault_place self.now }
    {
        match self {
            TypeFault::At(fault) => Some(fault.place),
            TypeFault::Memory => None,
        }
    }
}

impl Misuse {
    ghost use Rattle.cql_types.specs.Faults.{misuse_row};

    /// The name that programs print.
    pub fn name(self) -> &'static str
        ensures { result.now ≡ (misuse_row self).1 }
    {
        self.row().1
    }

    fn row(self) -> (u8, &'static str)
        ensures number { result.0 ≡ (misuse_row self).0 }
        ensures name { result.1.now ≡ (misuse_row self).1 }
    {
        match self {
            Misuse::UnknownProperty => (1, "UnknownProperty"),
            Misuse::WrongKind => (2, "WrongKind"),
            Misuse::NotADate => (3, "NotADate"),
            Misuse::NotWhole => (4, "NotWhole"),
            Misuse::NumberTooLarge => (5, "NumberTooLarge"),
            Misuse::BadShape => (6, "BadShape"),
            Misuse::EndsTurned => (7, "EndsTurned"),
        }
    }
}
