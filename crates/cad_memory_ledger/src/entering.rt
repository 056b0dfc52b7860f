//! What an accepted command adds to a ledger.

ghost use Rattle.std.specs.Prelude.{◌≡◌, ◌∷◌, [], ◌++◌, map, None, MatchResult};
ghost use Rattle.cad_versions.specs.Refusals.{refusal};
ghost use Rattle.cad_versions.specs.Entries.{version_in, entries_after};

use crate::versions::StoredVersions;
use cad_versions::Command;
use std::alloc::AllocError;

/// Writes what an accepted command changes at this revision, and keeps the command, or changes nothing.
pub(crate) fn enact(
    versions: &mut StoredVersions,
    commands: &mut Vec<Command>,
    command: Command,
    revision: u64,
) -> Result<(), AllocError>
    requires { refusal (map version_in versions.now) command ≡ None }
    ensures versions { MatchResult result (λ _. versions.new ≡ entries_after revision versions.old command)
        (λ _. versions.new ≡ versions.old) }
    ensures commands { MatchResult result (λ _. commands.new.items ≡ commands.old.items ++ command ∷ [])
        (λ _. commands.new.items ≡ commands.old.items) }
{
    commands.reserve(1)?;
    let copy = command.copy()?;
    versions.enact(command, revision)?;
    commands.push(copy)?;
    Ok(())
}
