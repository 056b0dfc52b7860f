//! Why a call on the tables fails.

use sqlite::{Error, ErrorCode};
use sqlite_resolve::CompileError;
use std::alloc::{AllocError, AllocFailed};

/// Why a call fails.
#[derive(Clone, Copy, Debug, PartialEq, Eq, thiserror::Error)]
pub enum TableFault {
    /// Out of memory.
    #[error("out of memory")]
    Memory,
    /// The database refused, for this cause, which is never out of memory.
    #[error("the database refused")]
    Store(Error),
}

impl From<Error> for TableFault {
    ghost use Rattle.std.specs.Prelude.{◌≡◌};
    ghost use Rattle.cad_tables.specs.Faults.{fault_of};

    ghost from_gives = { λ e f. f ≡ fault_of e };

    fn from(error: Error) -> TableFault {
        match error {
            Error::SqliteFailure(ErrorCode::OutOfMemory)
            | Error::SqlInputError(CompileError::OutOfMemory) => TableFault::Memory,
            error => TableFault::Store(error),
        }
    }
}

impl From<AllocError> for TableFault {
    ghost use Rattle.std.specs.Prelude.{◌≡◌};
    ghost use Rattle.cad_tables.specs.declared.faults.TableFault.TheVariants.{Memory};

    ghost from_gives = { λ _ f. f ≡ Memory };

    fn from(_: AllocError) -> TableFault {
        TableFault::Memory
    }
}

impl<T: Drop> From<AllocFailed<T>> for TableFault {
    ghost use Rattle.std.specs.Prelude.{◌≡◌};
    ghost use Rattle.cad_tables.specs.declared.faults.TableFault.TheVariants.{Memory};

    ghost from_gives = { λ _ f. f ≡ Memory };

    fn from(_: AllocFailed<T>) -> TableFault {
        TableFault::Memory
    }
}
