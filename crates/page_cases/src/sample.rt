//! The sample register.

ghost use Rattle.std.specs.Prelude.{IfOk};
ghost use Rattle.cad_versions.specs.Listing.{IsListing};

use cad_changes::histories_after;
use cad_history::Histories;
use cad_memory_ledger::MemoryLedger;
use cad_page::Snapshot;
use cad_sample::{fill, sample};
use cad_versions::{Command, Ledger, RegisterFault, Version};
use std::alloc::{AllocError, Global};
use std::mem::replace;

/// The versions of the sample register at its last revision, from the plain ledger that its commands were entered into.
pub fn sample_versions(alloc: Global) -> Result<Vec<Version>, AllocError>
    ensures { IfOk result (λ versions. IsListing versions.items) }
{
    let mut ledger = MemoryLedger::new(alloc);
    let Ok(revision) = fill(alloc, &mut ledger) else {
        return Err(AllocError);
    };
    match ledger.as_of(revision) {
        Ok(versions) => Ok(versions),
        Err(_) => Err(AllocError),
    }
}

/// The sample register at a revision, or at its last one if none is asked for; none if there is no such revision.
pub fn snapshot_at(alloc: Global, asked: Option<u64>) -> Result<Option<Snapshot>, AllocError> {
    let mut ledger = MemoryLedger::new(alloc);
    let Ok(last) = fill(alloc, &mut ledger) else {
        return Err(AllocError);
    };
    let revision = asked.unwrap_or(last);
    match ledger.as_of(revision) {
        Ok(versions) => {
            let snapshot = Snapshot::build(alloc, revision, versions)?;
            Ok(Some(snapshot))
        }
        Err(RegisterFault::UnknownRevision) => Ok(None),
        Err(_) => Err(AllocError),
    }
}

// Replaces the features by those after this command too.
fn add_command(
    alloc: Global,
    histories: &mut Histories,
    command: &Command,
    revision: u64,
) -> Result<(), AllocError> {
    let next = histories_after(alloc, histories, command, revision)?;
    drop(replace(histories, next));
    Ok(())
}

// Adds the commands one after the other, and counts them.
fn add_commands(
    alloc: Global,
    histories: &mut Histories,
    commands: &[Command],
) -> Result<u64, AllocError> {
    let mut last: u64 = 0;
    for command in commands {
        last = last.saturating_add(1);
        add_command(alloc, histories, command, last)?;
    }
    Ok(last)
}

fn histories_of(alloc: Global, commands: &[Command]) -> Result<(Histories, u64), AllocError> {
    let mut histories = Histories::new(alloc)?;
    let last = add_commands(alloc, &mut histories, commands)?;
    Ok((histories, last))
}

/// The features of the sample register at every revision, to which each command was added, and its last revision.
pub fn grown_histories(alloc: Global) -> Result<(Histories, u64), AllocError> {
    let commands = sample(alloc)?;
    histories_of(alloc, &commands)
}
