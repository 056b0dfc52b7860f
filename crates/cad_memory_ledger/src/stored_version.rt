//! Versions as they are kept.

ghost use Rattle.std.specs.Prelude.{◌≡◌, ◌≤◌, ◌≤ℤ◌, pos, int_le, true, IfOk};
ghost use Rattle.cad_day.specs.Days.{number_of};
ghost use Rattle.cad_versions.specs.VersionedObject.{IsVersion};
ghost use Rattle.cad_versions.specs.Versions.{begun, is_of as of_object, is_open_of as open_of_object};
ghost use Rattle.cad_versions.specs.Entries.{version_in, entered_at, close_entry, seen_at as seen};

use cad_day::Day;
use cad_versions::{Body, ObjectId, Version};
use std::alloc::{AllocError, Global};
use std::marker::Model;

/// A version, the revision that entered it, and the one that closed it.
#[derive(Debug, Drop)]
pub(crate) struct StoredVersion {
    version: Version,
    entered: u64,
    closed: Option<u64>,
}

impl Model for StoredVersion {
    ghost use Rattle.cad_versions.specs.VersionedObject.{IsVersion};
    ghost use Rattle.cad_versions.specs.Entries.{Entry};

    ghost Value = { Entry };

    ghost view = { λ kept. record { version = kept.version; entered = kept.entered; closed = kept.closed } };

    ghost invariant = { λ kept. IsVersion kept.version };
}

impl StoredVersion {
    /// An open version that this revision enters.
    pub(crate) fn new(
        object: ObjectId,
        number: u32,
        first: Day,
        body: Body,
        revision: u64,
    ) -> StoredVersion
        requires positive { 1 ≤ number }
        requires small { number ≤ 2147483647 }
        ensures { result ≡ entered_at revision (begun object number first body) }
    {
        StoredVersion {
            version: Version {
                object,
                number,
                first,
                last: None,
                body,
            },
            entered: revision,
            closed: None,
        }
    }

    pub(crate) fn is_of(&self, object: ObjectId) -> bool
        ensures { result ≡ of_object object (version_in self.now) }
    {
        self.version.object.number() == object.number()
    }

    pub(crate) fn is_open_of(&self, object: ObjectId) -> bool
        ensures { result ≡ open_of_object object (version_in self.now) }
    {
        self.is_of(object) && self.version.last.is_none()
    }

    pub(crate) fn body(&self) -> &Body
        ensures { result.now ≡ (version_in self.now).body }
    {
        &self.version.body
    }

    pub(crate) fn first(&self) -> Day
        ensures { result ≡ (version_in self.now).first }
    {
        self.version.first
    }

    /// Closes the version on the day, at this revision, if it is open and of the object.
    pub(crate) fn close_if_open(&mut self, object: ObjectId, day: Day, revision: u64)
        requires { open_of_object object (version_in self.now) ≡ true →
            number_of (version_in self.now).first ≤ℤ number_of day }
        ensures { self.new ≡ close_entry object day revision self.old }
    {
        if self.is_open_of(object) {
            self.version.last = Some(day);
            self.closed = Some(revision);
        }
    }

    /// Whether the revision, or one before it, entered the version.
    pub(crate) fn is_entered_by(&self, revision: u64) -> bool
        ensures { result ≡ int_le (pos self.now.entered) (pos revision) }
    {
        self.entered <= revision
    }

    /// The version as it was at a revision: a later closing is not seen.
    pub(crate) fn seen_at(&self, alloc: Global, revision: u64) -> Result<Version, AllocError>
        ensures seen { IfOk result (λ version. version ≡ seen revision self.now) }
        ensures sound { IfOk result IsVersion }
    {
        let version = &self.version;
        let last = match self.closed {
            Some(closed) if closed <= revision => version.last,
            _ => None,
        };
        Ok(Version {
            object: version.object,
            number: version.number,
            first: version.first,
            last,
            body: version.body.copy()?,
        })
    }

    /// A copy, as ledgers give it.
    pub(crate) fn copy(&self, alloc: Global) -> Result<cad_versions::StoredVersion, AllocError>
        ensures copy { IfOk result (λ copy. copy ≡ self.now) }
        ensures sound { IfOk result (λ copy. IsVersion (version_in copy)) }
    {
        let version = &self.version;
        Ok(cad_versions::StoredVersion {
            version: Version {
                object: version.object,
                number: version.number,
                first: version.first,
                last: version.last,
                body: version.body.copy()?,
            },
            entered: self.entered,
            closed: self.closed,
        })
    }
}
