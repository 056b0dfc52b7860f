//! The sample register.

ghost use Rattle.std.specs.Prelude.{IfOk};
ghost use Rattle.cad_versions.specs.Listing.{IsListing};

use cad_memory_ledger::MemoryLedger;
use cad_sample::fill;
use cad_versions::{Ledger, Version};
use std::alloc::{AllocError, Global};

/// The versions of the sample register at its last revision, from the plain ledger that its commands were entered into.
pub fn sample_versions(alloc: Global) -> Result<Vec<Version>, AllocError>
    ensures { IfOk result (λ versions. IsListing versions.items) }
{
    let mut ledger = MemoryLedger::new(alloc);
    let Ok(revision) = fill(alloc, &mut ledger) else {
        return Err(AllocError);
    };
    match ledger.as_of(revision) {
        Ok(versions) => Ok(versions),
        Err(_) => Err(AllocError),
    }
}
