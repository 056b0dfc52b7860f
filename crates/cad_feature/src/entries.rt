//! Stored versions that are found by their objects.

ghost use Rattle.std.specs.Prelude.{map};
ghost use Rattle.std.specs.List.Sorted.{IsNonDecreasingBy};
ghost use Rattle.cad_versions.specs.Entries.{version_in};
ghost use Rattle.cad_versions.specs.Listing.{IsListing};
ghost use Rattle.cad_feature.specs.inner.StoredVersions.{number_of_entry, own_entries};

use cad_versions::{ObjectId, StoredVersion};

/// Stored versions by their objects.
#[derive(Clone, Copy)]
pub(crate) struct Entries<'a> {
    pub(crate) entries: &'a [StoredVersion],
    ghost rising: { IsNonDecreasingBy number_of_entry entries.now },
}

impl<'a> Entries<'a> {
    ghost use Rattle.std.specs.Prelude.{◌≡◌};

    pub(crate) fn new(entries: &'a [StoredVersion]) -> Entries<'a>
        requires listing { IsListing (map version_in entries.now) }
        ensures { result.entries.now ≡ entries.now }
    {
        Entries { entries }
    }

    /// Those of the object, by binary searches.
    pub(crate) fn near(&self, object: ObjectId) -> &'a [StoredVersion]
        ensures { own_entries object result.now ≡ own_entries object self.now.entries.now }
    {
        let number = object.number();
        let first = self
            .entries
            .partition_point(|entry| entry.version.object.number() < number);
        let rest = &self.entries[first..];
        let count = rest.partition_point(|entry| entry.version.object.number() <= number);
        &rest[..count]
    }
}
