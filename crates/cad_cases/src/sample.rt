//! The sample register in memory.

ghost use Rattle.std.specs.Prelude.{IfOk};
ghost use Rattle.cad_cases.specs.Sample.{IsSampleLedger};

use cad_memory_ledger::MemoryLedger;
use cad_sample::fill;
use std::alloc::{AllocError, Global};

/// The sample register.
pub fn sample_ledger(alloc: Global) -> Result<MemoryLedger, AllocError>
    ensures { IfOk result IsSampleLedger }
{
    let mut ledger = MemoryLedger::new(alloc);
    match fill(alloc, &mut ledger) {
        Ok(_) => Ok(ledger),
        Err(_) => Err(AllocError),
    }
}
