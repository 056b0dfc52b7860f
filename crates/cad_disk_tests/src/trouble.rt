//! Why a test cannot go on.

use std::alloc::{AllocError, AllocFailed};
use std::io::Error;

/// Why a test cannot go on.
#[derive(Clone, Copy, Debug)]
pub(crate) enum Trouble {
    /// Memory ran out.
    Memory,
    /// A file that never fails did fail.
    File,
    /// This was not made.
    Missing(&'static str),
}

impl From<AllocError> for Trouble {
    fn from(_: AllocError) -> Trouble {
        Trouble::Memory
    }
}

impl<T: Drop> From<AllocFailed<T>> for Trouble {
    fn from(_: AllocFailed<T>) -> Trouble {
        Trouble::Memory
    }
}

impl From<Error> for Trouble {
    fn from(_: Error) -> Trouble {
        Trouble::File
    }
}
