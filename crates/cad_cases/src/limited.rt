//! A ledger that can be listed at most so many times.

ghost use Rattle.std.specs.Prelude.{◌≡◌};

use cad_memory_ledger::MemoryLedger;
use cad_versions::{Command, HistoryLedger, Ledger, RegisterFault, StoredVersion, Version};

/// A ledger in memory that can be listed so many more times; each listing after these runs out of memory. So if that is not reported,
/// nothing more was read from it.
#[derive(Drop)]
pub struct LimitedLedger {
    /// The ledger.
    pub ledger: MemoryLedger,
    /// How many more listings are possible.
    pub listings: u64,
}

impl Ledger for LimitedLedger {
    ghost use Rattle.std.proofs.Common.{◌≡◌, refl, ◌∙◌};
    ghost use Rattle.cad_memory_ledger.specs.Ledgers.{IsLedgerOf, IsMemory, memory_keeps};

    ghost stands_for = { λ limited. IsLedgerOf limited.ledger };

    ghost counts = { λ _. Unit {0} };

    ghost lives = { λ _. Unit {0} };

    ghost fails = { λ _ _. ⊥ };

    ghost newest = { λ limited. limited.ledger.revision };

    ghost fails_to_apply = { λ _ _. IsMemory };

    ghost fails_to_list = { λ _ _. IsMemory };

    ghost refuses_command = { λ _ _ _ _. ⊥ };

    ghost refuses_listing = { λ _ _ _. ⊥ };

    ghost damaged_for_command = { λ _ _ _ _ _. ⊥ };

    ghost damaged_for_listing = { λ _ _ _ _ _. ⊥ };

    ghost remains = { λ old new. new.ledger ≡ old.ledger };

    ghost apply_keeps = { λ _ _. memory_keeps };

    ghost list_keeps = { λ _ _. memory_keeps };

    ghost were_accepted = { λ _ _ stands. stands.accepted };

    ghost remains_here = { λ _. refl };

    ghost remains_then = { λ _ _ _ first later. later ∙ first };

    ghost fails_before = { λ _ _ _ _ fails. fails };

    fn revision(&self) -> u64 {
        self.ledger.revision()
    }

    fn apply(&mut self, command: Command) -> Result<u64, RegisterFault> {
        self.ledger.apply(command)
    }

    fn check(&mut self, command: &Command) -> Result<u64, RegisterFault> {
        self.ledger.check(command)
    }

    fn as_of(&mut self, revision: u64) -> Result<Vec<Version>, RegisterFault> {
        if self.ledger.revision() < revision {
            return Err(RegisterFault::UnknownRevision);
        }
        if self.listings == 0 {
            return Err(RegisterFault::Memory);
        }
        self.listings -= 1;
        self.ledger.as_of(revision)
    }
}

impl HistoryLedger for LimitedLedger {
    fn stored_versions(&mut self) -> Result<Vec<StoredVersion>, RegisterFault> {
        if self.listings == 0 {
            return Err(RegisterFault::Memory);
        }
        self.listings -= 1;
        self.ledger.stored_versions()
    }
}
