//! A journal of a ledger in memory.

ghost use Rattle.std.specs.Prelude.{◌≡◌, IfOk};

use cad_versions::{Command, RegisterFault};
use std::alloc::{AllocError, Global};

/// The commands after a revision, up to the newest when the reading began. All are copied when it begins.
#[derive(Drop)]
pub struct MemoryReading {
    commands: Vec<Command>,
    behind: u64,
    newest: u64,
}

/// Copies of the commands, in their order.
fn copies(alloc: Global, commands: &[Command]) -> Result<Vec<Command>, AllocError>
    ensures { IfOk result (λ found. found.items ≡ commands.now) }
{
    let mut found = Vec::with_capacity(alloc, commands.len())?;
    for command in commands {
        found.push(command.copy()?)?;
    }
    Ok(found)
}

impl MemoryReading {
    ghost use Rattle.std.specs.Prelude.{◌≡◌, IfOk, IfErr};
    ghost use Rattle.cad_memory_ledger.specs.Readings.{commands_of, Begins, IsNoReading};

    /// The commands after this revision.
    pub(crate) fn begin(
        alloc: Global,
        commands: &[Command],
        behind: u64,
    ) -> Result<MemoryReading, RegisterFault>
        ensures begun { IfOk result (Begins behind commands.now) }
        ensures cause { IfErr result (IsNoReading behind commands.now) }
    {
        let newest = commands.len() as u64;
        if newest < behind {
            return Err(RegisterFault::UnknownRevision);
        }
        let commands = copies(alloc, &commands[behind as usize..])?;
        Ok(MemoryReading {
            commands,
            behind,
            newest,
        })
    }

    /// The commands.
    pub(crate) fn into_commands(self) -> Vec<Command>
        ensures { result.items ≡ commands_of self }
    {
        let MemoryReading {
            commands,
            behind: _,
            newest: _,
        } = self;
        commands
    }
}
