//! The versions that a ledger keeps.

ghost use Rattle.std.specs.Prelude.{◌≡◌, map, None, MatchResult, IfOk};
ghost use Rattle.cad_versions.specs.Refusals.{refusal};
ghost use Rattle.cad_versions.specs.Entries.{version_in, entries_after, entries_at, seen_at as seen};

use crate::showing::{copies, entries_in_order, in_order, seen_at};
use crate::standing::refusal_of;
use crate::stored_version::StoredVersion;
use crate::writing::{amend, retire};
use cad_versions::{Command, RegisterFault, Version};
use std::alloc::{AllocError, Global};
use std::marker::Model;

/// Versions in the order of their entry. Those of each object are a history, and there are no more than allowed.
#[derive(Debug, Drop)]
pub(crate) struct StoredVersions {
    kept: Vec<StoredVersion>,
}

impl Model for StoredVersions {
    ghost use Rattle.std.specs.Prelude.{List};
    ghost use Rattle.cad_versions.specs.Entries.{Entry};
    ghost use Rattle.cad_memory_ledger.specs.inner.Plain.{AreHistories};

    ghost Value = { List Entry };

    ghost view = { λ versions. versions.kept.items };

    ghost invariant = { λ versions. AreHistories versions.kept.items };
}

impl StoredVersions {
    ghost use Rattle.std.specs.Prelude.{◌≡◌, [], map, None, MatchResult, IfOk};
    ghost use Rattle.cad_versions.specs.Refusals.{refusal};
    ghost use Rattle.cad_versions.specs.AsOf.{entry_order};
    ghost use Rattle.cad_versions.specs.Entries.{version_in, entries_after, entries_at, seen_at as seen};
    ghost use Rattle.cad_versions.specs.Sorting.{sort_by};
    ghost use Rattle.cad_versions.specs.Identifiers.{by_identifier};
    ghost use Rattle.cad_versions.specs.Listing.{IsListing};

    pub(crate) fn new(alloc: Global) -> StoredVersions
        ensures { result ≡ [] }
    {
        StoredVersions {
            kept: Vec::new(alloc),
        }
    }

    /// Why the command is refused, given these versions.
    pub(crate) fn refusal(&self, command: &Command) -> Option<RegisterFault>
        ensures { result ≡ refusal (map version_in self.now) command.now }
    {
        refusal_of(&self.kept, command)
    }

    /// Writes what an accepted command changes at this revision, or nothing.
    pub(crate) fn enact(&mut self, command: Command, revision: u64) -> Result<(), AllocError>
        requires { refusal (map version_in self.now) command ≡ None }
        ensures { MatchResult result (λ _. self.new ≡ entries_after revision self.old command)
            (λ _. self.new ≡ self.old) }
    {
        match command {
            Command::Enter {
                object,
                first,
                body,
            } => {
                self.kept
                    .push(StoredVersion::new(object, 1, first, body, revision))?;
            }
            Command::Amend {
                object,
                first,
                body,
            } => amend(&mut self.kept, object, first, body, revision)?,
            Command::Retire { object, last } => retire(&mut self.kept, object, last, revision),
        }
        Ok(())
    }

    /// The versions as they were at a revision, in the order of their identifiers.
    pub(crate) fn as_of(&self, alloc: Global, revision: u64) -> Result<Vec<Version>, AllocError>
        ensures shown { IfOk result (λ found. found.items ≡
            sort_by by_identifier (map (seen revision) (entries_at revision self.now))) }
        ensures ascending { IfOk result (λ found. IsListing found.items) }
    {
        let mut versions = seen_at(alloc, &self.kept, revision)?;
        in_order(&mut versions)?;
        Ok(versions)
    }

    /// All versions, in the order of their identifiers.
    pub(crate) fn all(&self, alloc: Global) -> Result<Vec<cad_versions::StoredVersion>, AllocError>
        ensures shown { IfOk result (λ found. found.items ≡ sort_by entry_order self.now) }
        ensures ascending { IfOk result (λ found. IsListing (map version_in found.items)) }
    {
        let mut entries = copies(alloc, &self.kept)?;
        entries_in_order(&mut entries)?;
        Ok(entries)
    }
}
