//! The rows of a revision as versions, and all rows as stored versions.

ghost use Rattle.std.specs.Prelude.{◌≡◌, List, None, map, IfOk, IfErr};
ghost use Rattle.std.specs.List.{All};
ghost use Rattle.std.specs.List.Sorted.{IsPermutation, IsSorted};
ghost use Rattle.sqlite_value.specs.Order.{Row};
ghost use Rattle.cad_register.specs.inner.Found.{AreReadOf, by_identifier};
ghost use Rattle.cad_register.specs.Damage.{AreSound, AreSeenAt, IsCauseIn, ListsRows, ListsStored};
ghost use Rattle.cad_register.specs.StoredVersions.{AreRowsOf, entry_of};
ghost use Rattle.cad_versions.specs.Entries.{version_in, seen_at as seen};
ghost use Rattle.cad_versions.specs.Listing.{IsListing};
ghost use Rattle.cad_versions.specs.VersionedObject.{IsVersion};

use crate::found::FoundRow;
use crate::stored_version::StoredVersion;
use cad_versions::{RegisterFault, Version};
use std::alloc::{AllocError, Global};

/// Sorts what was read of rows by identifier, as the identifiers are stored, in place.
pub(crate) fn put_in_order(found: &mut Vec<FoundRow>)
    ensures same { IsPermutation found.old.items found.new.items }
    ensures sorted { IsSorted by_identifier found.new.items }
{
    found.sort_unstable_by_key(|row| row.identifier());
}

/// The stored versions of rows in this order, of a register whose newest revision is `newest`.
fn stored_versions(
    alloc: Global,
    found: Vec<FoundRow>,
    newest: u32,
) -> Result<Vec<StoredVersion>, RegisterFault>
    ensures sound { (rows : List Row) → AreReadOf rows found.items → IfOk result (λ _.
        AreSound newest None 0 rows) }
    ensures shown { (rows : List Row) → AreReadOf rows found.items → IfOk result (λ versions.
        AreRowsOf rows (map entry_of versions.items)) }
    ensures listed { (rows : List Row) → AreReadOf rows found.items → IfOk result (λ versions.
        IsListing (map version_in (map entry_of versions.items))) }
    ensures cause { (rows : List Row) → AreReadOf rows found.items → IfErr result (IsCauseIn newest rows) }
{
    let mut versions = Vec::with_capacity(alloc, found.len())?;
    let mut before = None;
    for row in found {
        let version = row.next(before, versions.len(), newest)?;
        before = Some(version.place());
        versions.push(version)?;
    }
    Ok(versions)
}

/// The versions as they were at a revision.
fn seen_at(
    alloc: Global,
    stored: Vec<StoredVersion>,
    revision: u32,
) -> Result<Vec<Version>, AllocError>
    ensures { IfOk result (λ versions. versions.items ≡ map (seen revision) (map entry_of stored.items)) }
{
    let mut versions = Vec::with_capacity(alloc, stored.len())?;
    for version in stored {
        versions.push(version.seen_at(revision))?;
    }
    Ok(versions)
}

/// The versions as ledgers give them.
fn entries(
    alloc: Global,
    stored: Vec<StoredVersion>,
) -> Result<Vec<cad_versions::StoredVersion>, AllocError>
    requires { All IsVersion (map version_in (map entry_of stored.items)) }
    ensures { IfOk result (λ entries. entries.items ≡ map entry_of stored.items) }
{
    let mut entries = Vec::with_capacity(alloc, stored.len())?;
    for version in stored {
        entries.push(version.into_entry())?;
    }
    Ok(entries)
}

/// The versions of rows in this order, at a revision of a register whose newest revision is `newest`.
fn versions_at(
    alloc: Global,
    found: Vec<FoundRow>,
    revision: u32,
    newest: u32,
) -> Result<Vec<Version>, RegisterFault>
    ensures sound { (rows : List Row) → AreReadOf rows found.items → IfOk result (λ _.
        AreSound newest None 0 rows) }
    ensures shown { (rows : List Row) → AreReadOf rows found.items → IfOk result (λ versions.
        AreSeenAt revision rows versions.items) }
    ensures listed { (rows : List Row) → AreReadOf rows found.items → IfOk result (λ versions.
        IsListing versions.items) }
    ensures cause { (rows : List Row) → AreReadOf rows found.items → IfErr result (IsCauseIn newest rows) }
{
    let stored = stored_versions(alloc, found, newest)?;
    let versions = seen_at(alloc, stored, revision)?;
    Ok(versions)
}

/// The versions of the rows of a revision, no matter in which order these were read. If a damaged row is named, it is the first one by its
/// identifier, as it is stored.
pub(crate) fn listed(
    alloc: Global,
    found: Vec<FoundRow>,
    revision: u32,
    newest: u32,
) -> Result<Vec<Version>, RegisterFault>
    ensures judged { (shown : List Row) → AreReadOf shown found.items → ListsRows revision newest shown result }
    ensures listed { (shown : List Row) → AreReadOf shown found.items → IfOk result (λ versions. IsListing versions.items) }
{
    let mut found = found;
    put_in_order(&mut found);
    versions_at(alloc, found, revision, newest)
}

/// The stored versions of all rows, no matter in which order these were read. If a damaged row is named, it is the first one by its
/// identifier, as it is stored.
pub(crate) fn listed_entries(
    alloc: Global,
    found: Vec<FoundRow>,
    newest: u32,
) -> Result<Vec<cad_versions::StoredVersion>, RegisterFault>
    requires read { (shown : List Row) × AreReadOf shown found.items }
    ensures judged { (shown : List Row) → AreReadOf shown found.items → ListsStored newest shown result }
    ensures listed { IfOk result (λ entries. IsListing (map version_in entries.items)) }
{
    let mut found = found;
    put_in_order(&mut found);
    let stored = stored_versions(alloc, found, newest)?;
    let entries = entries(alloc, stored)?;
    Ok(entries)
}
