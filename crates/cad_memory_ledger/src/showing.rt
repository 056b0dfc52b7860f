//! Versions as they are shown.

ghost use Rattle.std.specs.Prelude.{◌≡◌, ◌∷◌, [], ◌++◌, map, IfOk, OnOk};
ghost use Rattle.std.specs.List.{All};
ghost use Rattle.std.specs.List.Sorted.{IsPermutation};
ghost use Rattle.cad_versions.specs.VersionedObject.{IsVersion};
ghost use Rattle.cad_versions.specs.AsOf.{entry_order};
ghost use Rattle.cad_versions.specs.Entries.{version_in, entries_at, seen_at as seen};
ghost use Rattle.cad_versions.specs.Sorting.{sort_by};
ghost use Rattle.cad_versions.specs.Identifiers.{by_identifier};
ghost use Rattle.cad_memory_ledger.specs.inner.Plain.{AreApart};

use crate::stored_version::StoredVersion;
use cad_versions::Version;
use std::alloc::{AllocError, Global};

/// Adds the version as it was at the revision, if that revision or one before it entered the version.
#[tactic(auto, using(crate::proofs::ShowLemmas::all_pushed))]
fn push_seen(
    alloc: Global,
    found: &mut Vec<Version>,
    kept: &StoredVersion,
    revision: u64,
) -> Result<(), AllocError>
    ensures seen { OnOk result (found.new.items ≡
        found.old.items ++ map (seen revision) (entries_at revision (kept.now ∷ []))) }
    ensures sound { All IsVersion found.old.items → OnOk result (All IsVersion found.new.items) }
{
    if kept.is_entered_by(revision) {
        let version = kept.seen_at(alloc, revision)?;
        found.push(version)?;
    }
    Ok(())
}

/// The versions that this revision or one before it entered, as they were at this revision.
pub(crate) fn seen_at(
    alloc: Global,
    kept: &[StoredVersion],
    revision: u64,
) -> Result<Vec<Version>, AllocError>
    ensures seen { IfOk result (λ found. found.items ≡ map (seen revision) (entries_at revision kept.now)) }
    ensures sound { IfOk result (λ found. All IsVersion found.items) }
{
    let mut found = Vec::new(alloc);
    for version in kept {
        push_seen(alloc, &mut found, version, revision)?;
    }
    Ok(found)
}

/// Sorts versions with different identifiers by identifier.
pub(crate) fn in_order(versions: &mut Vec<Version>) -> Result<(), AllocError>
    requires { AreApart versions.now.items }
    ensures sorted { OnOk result (versions.new.items ≡ sort_by by_identifier versions.old.items) }
    ensures same { IsPermutation versions.old.items versions.new.items }
{
    versions.sort_by_key(|version| (version.object.number(), version.number))?;
    Ok(())
}

/// Copies of all versions.
pub(crate) fn copies(
    alloc: Global,
    versions: &[StoredVersion],
) -> Result<Vec<cad_versions::StoredVersion>, AllocError>
    ensures same { IfOk result (λ found. found.items ≡ versions.now) }
    ensures sound { IfOk result (λ found. All IsVersion (map version_in found.items)) }
{
    let mut found = Vec::with_capacity(alloc, versions.len())?;
    for version in versions {
        let copy = version.copy(alloc)?;
        found.push(copy)?;
    }
    Ok(found)
}

/// Sorts stored versions with different identifiers by identifier.
pub(crate) fn entries_in_order(
    entries: &mut Vec<cad_versions::StoredVersion>,
) -> Result<(), AllocError>
    requires { AreApart (map version_in entries.now.items) }
    ensures sorted { OnOk result (entries.new.items ≡ sort_by entry_order entries.old.items) }
    ensures same { IsPermutation entries.old.items entries.new.items }
{
    entries.sort_by_key(|entry| (entry.version.object.number(), entry.version.number))?;
    Ok(())
}
