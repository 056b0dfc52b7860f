//! Versions as they are stored.

use crate::version::Version;
use cad_day::Day;
use std::marker::Model;

/// A version, the revision that entered it, and the one that closed it.
///
/// Contracts see it as an `Entry`.
#[derive(Debug, Drop)]
pub struct StoredVersion {
    /// The version at the newest revision.
    pub version: Version,
    /// The revision that entered it.
    pub entered: u64,
    /// The revision that closed it; without one it is open.
    pub closed: Option<u64>,
}

impl Model for StoredVersion {
    ghost use Rattle.cad_versions.specs.VersionedObject.{IsVersion};
    ghost use Rattle.cad_versions.specs.Entries.{Entry};

    ghost Value = { Entry };

    ghost view = { λ stored. record { version = stored.version; entered = stored.entered; closed = stored.closed } };

    ghost invariant = { λ stored. IsVersion stored.version };
}

impl StoredVersion {
    ghost use Rattle.std.specs.Prelude.{◌≡◌, pos, int_le};
    ghost use Rattle.cad_versions.specs.Entries.{seen_at};

    /// Whether the revision, or one before it, entered the version.
    pub fn is_entered_by(&self, revision: u64) -> bool
        ensures { result ≡ int_le (pos self.now.entered) (pos revision) }
    {
        self.entered <= revision
    }

    /// The last day that the version had at the revision, if it had one: a later closing is not seen.
    pub fn last_at(&self, revision: u64) -> Option<Day>
        ensures { result ≡ (seen_at revision self.now).last }
    {
        match self.closed {
            Some(closed) if closed <= revision => self.version.last,
            _ => None,
        }
    }
}
