//! From stored versions to rows: features with the revisions at which they have their values.

ghost use Rattle.std.specs.Prelude.{◌≡◌, ◌≤◌, ℕ, IfOk};
ghost use Rattle.std.specs.List.{AllByRecursion};
ghost use Rattle.cad_feature.specs.Features.{IsFeatureOf};
ghost use Rattle.cad_feature.specs.VersionRows.{IsRowOf, RunOn};
ghost use Rattle.cad_feature.specs.inner.StoredVersions.{row_from, FeatureStays};

use crate::entries::Entries;
use crate::entry_names::later;
use crate::features_then::{feature_then, last_change};
use crate::{Feature, Period};
use cad_schema::Collection;
use cad_versions::StoredVersion;
use std::alloc::{AllocError, Global};
use std::marker::Model;

/// The rows of one version: its feature with each of the values that it had.
#[derive(Debug, Drop)]
pub struct VersionRows {
    /// The row that has no end yet.
    pub newest: Feature,
    /// Those before it, the oldest first.
    pub earlier: Vec<Feature>,
}

/// The first revision from which on the entry's version is the same feature as at the last one.
fn start_of(entries: &Entries<'_>, entry: &StoredVersion, last: u32) -> u32
    requires { entry.now.entered ≤ last }
    ensures entered { entry.now.entered ≤ result }
    ensures within { result ≤ last }
    ensures stays { FeatureStays result last entries.now.entries.now entry.now }
{
    let change = last_change(entries, entry, u64::from(last));
    later(entry.entered, change) as u32
}

/// The entry's version, with the values that it had when the period began.
fn row(
    alloc: Global,
    entries: &Entries<'_>,
    entry: &StoredVersion,
    period: Period,
    collection: Collection,
) -> Result<Feature, AllocError>
    ensures row { IfOk result (λ row. row ≡ row_from entries.now.entries.now collection entry.now period) }
    ensures fits { IfOk result (IsFeatureOf collection) }
{
    let start = u64::from(period.start);
    let feature = feature_then(alloc, entries, entry, start, collection)?;
    Ok(feature.with_period(period))
}

/// The rows of the entry's version up to the revision, the oldest first.
fn earlier_rows(
    alloc: Global,
    entries: &Entries<'_>,
    entry: &StoredVersion,
    until: u32,
    collection: Collection,
) -> Result<Vec<Feature>, AllocError>
    requires { entry.now.entered ≤ until }
    ensures each { IfOk result (λ rows. (newest : ℕ) → AllByRecursion (IsRowOf newest entries.now.entries.now collection entry.now) rows.items) }
    ensures run { IfOk result (λ rows. RunOn entry.now.entered until rows.items) }
{
    let mut rows = Vec::new(alloc);
    let mut end = until;
    while entry.entered < u64::from(end) {
        let start = start_of(entries, entry, end - 1);
        let row = row(alloc, entries, entry, Period { start, end }, collection)?;
        rows.push(row)?;
        end = start;
    }
    rows.reverse();
    Ok(rows)
}

/// The stored versions of a register, of which rows are made.
///
/// Contracts see the entries.
#[derive(Drop)]
pub struct StoredVersions<'a> {
    entries: Entries<'a>,
}

impl<'a> Model for StoredVersions<'a> {
    ghost use Rattle.std.specs.Prelude.{List};
    ghost use Rattle.cad_versions.specs.Entries.{Entry};

    ghost Value = { List Entry };

    ghost view = { λ stored. stored.entries.entries.now };
}

impl<'a> StoredVersions<'a> {
    ghost use Rattle.std.specs.Prelude.{◌≡◌, ◌≤◌, IfOk, map};
    ghost use Rattle.cad_versions.specs.Entries.{version_in};
    ghost use Rattle.cad_versions.specs.Listing.{IsListing};
    ghost use Rattle.cad_feature.specs.VersionRows.{AreRowsOfVersion};

    /// All stored versions of a register, by object and number.
    pub fn new(entries: &'a [StoredVersion]) -> StoredVersions<'a>
        requires listing { IsListing (map version_in entries.now) }
        ensures { result ≡ entries.now }
    {
        StoredVersions {
            entries: Entries::new(entries),
        }
    }

    /// The rows of one of the versions, as a feature of the collection, up to the newest revision.
    ///
    /// An earlier row is made only where a revision since closed the version, or gave another name to its unit or its party on its first
    /// day.
    pub fn rows(
        &self,
        alloc: Global,
        entry: &StoredVersion,
        newest: u32,
        collection: Collection,
    ) -> Result<VersionRows, AllocError>
        requires { entry.now.entered ≤ newest }
        ensures { IfOk result (λ rows. AreRowsOfVersion newest self.now collection entry.now rows.earlier.items rows.newest) }
    {
        let start = start_of(&self.entries, entry, newest);
        let period = Period {
            start,
            end: u32::MAX,
        };
        let row = row(alloc, &self.entries, entry, period, collection)?;
        let earlier = earlier_rows(alloc, &self.entries, entry, start, collection)?;
        Ok(VersionRows {
            newest: row,
            earlier,
        })
    }
}
