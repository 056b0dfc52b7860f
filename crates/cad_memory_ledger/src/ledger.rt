//! The ledger.

use crate::entering::enact;
use crate::reading::MemoryReading;
use crate::versions::StoredVersions;
use cad_versions::{
    Command, HistoryLedger, JournalLedger, Ledger, RegisterFault, StoredVersion, Version,
};
use std::alloc::Global;

/// A ledger in memory. The only fault of its own is `Memory`.
#[derive(Drop)]
pub struct MemoryLedger {
    versions: StoredVersions,
    commands: Vec<Command>,
    revision: u64,
    alloc: Global,
}

impl MemoryLedger {
    ghost use Rattle.std.specs.Prelude.{[]};
    ghost use Rattle.cad_memory_ledger.specs.Ledgers.{IsLedgerOf};

    /// The ledger of no commands.
    pub fn new(alloc: Global) -> MemoryLedger
        ensures { IsLedgerOf result [] }
    {
        MemoryLedger {
            versions: StoredVersions::new(alloc),
            commands: Vec::new(alloc),
            revision: 0,
            alloc,
        }
    }
}

impl Ledger for MemoryLedger {
    ghost use Rattle.std.proofs.Common.{◌≡◌, refl, ◌∙◌};
    ghost use Rattle.cad_memory_ledger.specs.Ledgers.{IsLedgerOf, IsMemory, memory_keeps};

    ghost stands_for = { IsLedgerOf };

    ghost counts = { λ _. Unit {0} };

    ghost lives = { λ _. Unit {0} };

    ghost fails = { λ _ _. ⊥ };

    ghost newest = { λ ledger. ledger.revision };

    ghost fails_to_apply = { λ _ _. IsMemory };

    ghost fails_to_list = { λ _ _. IsMemory };

    ghost refuses_command = { λ _ _ _ _. ⊥ };

    ghost refuses_listing = { λ _ _ _. ⊥ };

    ghost damaged_for_command = { λ _ _ _ _ _. ⊥ };

    ghost damaged_for_listing = { λ _ _ _ _ _. ⊥ };

    ghost remains = { λ old new. new ≡ old };

    ghost apply_keeps = { λ _ _. memory_keeps };

    ghost list_keeps = { λ _ _. memory_keeps };

    ghost were_accepted = { λ _ _ stands. stands.accepted };

    ghost remains_here = { λ _. refl };

    ghost remains_then = { λ _ _ _ first later. later ∙ first };

    ghost fails_before = { λ _ _ _ _ fails. fails };

    fn revision(&self) -> u64 {
        self.revision
    }

    fn apply(&mut self, command: Command) -> Result<u64, RegisterFault> {
        if let Some(fault) = self.versions.refusal(&command) {
            return Err(fault);
        }
        // The count cannot go higher.
        let Some(revision) = self.revision.checked_add(1) else {
            return Err(RegisterFault::Memory);
        };
        enact(&mut self.versions, &mut self.commands, command, revision)?;
        self.revision = revision;
        Ok(revision)
    }

    fn check(&mut self, command: &Command) -> Result<u64, RegisterFault> {
        if let Some(fault) = self.versions.refusal(command) {
            return Err(fault);
        }
        // The count cannot go higher.
        let Some(revision) = self.revision.checked_add(1) else {
            return Err(RegisterFault::Memory);
        };
        Ok(revision)
    }

    fn as_of(&mut self, revision: u64) -> Result<Vec<Version>, RegisterFault> {
        if self.revision < revision {
            return Err(RegisterFault::UnknownRevision);
        }
        let found = self.versions.as_of(self.alloc, revision)?;
        Ok(found)
    }
}

impl JournalLedger for MemoryLedger {
    ghost use Rattle.cad_memory_ledger.specs.Ledgers.{IsMemory, memory_keeps};
    ghost use Rattle.cad_memory_ledger.specs.Readings.{HasRead, behind_of as reading_behind, newest_of as reading_newest};

    type Reading = MemoryReading;

    ghost has_read = { HasRead };

    ghost behind_of = { reading_behind };

    ghost newest_of = { reading_newest };

    ghost rows_left = { λ _. 0 };

    ghost fails_to_read = { λ _. IsMemory };

    ghost refuses_reading = { λ _ _ _ _. ⊥ };

    ghost damaged_for_reading = { λ _ _ _ _ _ _. ⊥ };

    ghost read_keeps = { λ _. memory_keeps };

    ghost readings_are_within = { λ _ _ has. (has.behind, has.newest) };

    fn begin_journal(&self, behind: u64) -> Result<MemoryReading, RegisterFault> {
        MemoryReading::begin(self.alloc, &self.commands, behind)
    }

    // All commands were copied when the reading began.
    fn read_on(&mut self, _reading: &mut MemoryReading, _most: u32) -> Result<bool, RegisterFault> {
        Ok(true)
    }

    fn commands(reading: MemoryReading, _alloc: Global) -> Result<Vec<Command>, RegisterFault> {
        Ok(reading.into_commands())
    }

    fn readings_stay() {}
}

impl HistoryLedger for MemoryLedger {
    fn stored_versions(&mut self) -> Result<Vec<StoredVersion>, RegisterFault> {
        let found = self.versions.all(self.alloc)?;
        Ok(found)
    }
}
