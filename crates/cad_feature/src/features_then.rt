//! From stored versions to features at a revision.

ghost use Rattle.std.specs.Prelude.{◌≡◌, ◌≤◌, IfOk};
ghost use Rattle.cad_feature.specs.Features.{IsFeatureOf};
ghost use Rattle.cad_feature.specs.FeaturesThen.{feature_at};
ghost use Rattle.cad_feature.specs.inner.StoredVersions.{FeatureStays};

use crate::Feature;
use crate::entries::Entries;
use crate::entry_names::{closing_up_to, last_turn, later, name_at};
use crate::flattening::feature;
use cad_schema::Collection;
use cad_versions::StoredVersion;
use std::alloc::{AllocError, Global};

/// The version of the entry, as a feature at the revision.
pub(crate) fn feature_then(
    alloc: Global,
    entries: &Entries<'_>,
    entry: &StoredVersion,
    revision: u64,
    collection: Collection,
) -> Result<Feature, AllocError>
    ensures feature { IfOk result (λ x. x ≡ feature_at entries.now.entries.now collection entry.now revision) }
    ensures fits { IfOk result (IsFeatureOf collection) }
{
    let version = &entry.version;
    let first = version.first;
    let unit_name = name_at(entries, version.body.unit(), first, revision);
    let party_name = name_at(entries, version.body.party(), first, revision);
    let last = entry.last_at(revision);
    let feature = feature(alloc, version, last, unit_name, party_name, collection)?;
    Ok(feature)
}

/// A revision, up to the last one, since which the entry's version is the same feature as at the last one.
pub(crate) fn last_change(entries: &Entries<'_>, entry: &StoredVersion, most: u64) -> u64
    ensures within { result ≤ most }
    ensures stays { FeatureStays result most entries.now.entries.now entry.now }
{
    let version = &entry.version;
    let closing = closing_up_to(entry.closed, most);
    let unit = last_turn(entries, version.body.unit(), version.first, most);
    let party = last_turn(entries, version.body.party(), version.first, most);
    later(closing, later(unit, party))
}
