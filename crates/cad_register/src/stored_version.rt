//! Versions as they are stored.

ghost use Rattle.std.specs.Prelude.{◌≡◌, ◌<ℤ◌, ◌↔◌, ◌++◌, ◌∷◌, [], ℕ, List, IsTrue, MatchOption};
ghost use Rattle.cad_day.specs.Days.{number_of};
ghost use Rattle.cad_versions.specs.Class.{class_of};
ghost use Rattle.cad_versions.specs.VersionedObject.{IsVersion};
ghost use Rattle.cad_versions.specs.Entries.{Entry, seen_at};
ghost use Rattle.cad_versions.specs.Identifiers.{identifier_of};
ghost use Rattle.cad_versions.specs.BodyParts.{parts_of};
ghost use Rattle.cad_register.specs.Parts.{HasParts};
ghost use Rattle.cad_register.specs.inner.Reading.{Reads};
ghost use Rattle.cad_register.specs.inner.Gathering.{Gathers};
ghost use Rattle.cad_register.specs.StoredVersions.{IsRowOf, entry_of};
ghost use Rattle.cad_register.specs.Damage.{place_of, IsClosedBy, HasRevisions, KeepsRules};

use crate::columns::{
    ReadFault, class_at, count_at, day_at, last_day_at, object_at, optional_count_at,
};
use crate::gathering::Gathering;
use crate::parts::parts_at;
use crate::place::{Place, follows};
use cad_day::Day;
use cad_versions::{Body, Class, MOST_NUMBER, MOST_VERSIONS, ObjectId, Version};
use sqlite::Row;
use std::alloc::Global;

/// The body of this class in the columns of the row.
fn body_at(alloc: Global, row: &Row, class: Class) -> Result<Body, ReadFault>
    ensures { Reads result (λ body. (class_of body ≡ class) × HasParts row.now (parts_of body)) }
{
    match Body::from_parts(class, parts_at(alloc, row)?) {
        Some(body) => Ok(body),
        None => Err(ReadFault::Damaged),
    }
}

fn is_before(day: Day, other: Day) -> bool
    ensures { IsTrue result ↔ (number_of day <ℤ number_of other) }
{
    day.number() < other.number()
}

/// The version with these parts, if its number and its last day are valid.
fn version_of(
    object: ObjectId,
    number: u32,
    first: Day,
    last: Option<Day>,
    body: Body,
) -> Option<Version>
    ensures { MatchOption result (¬ IsVersion (record { object = object; number = number; first = first; last = last; body = body })) (λ version. version ≡ record { object = object; number = number; first = first; last = last; body = body }) }
{
    if number < 1 || number > MOST_NUMBER {
        return None;
    }
    if let Some(last) = last {
        if is_before(last, first) {
            return None;
        }
    }
    Some(Version {
        object,
        number,
        first,
        last,
        body,
    })
}

/// A version, the revision that entered it, and the one that closed it.
#[derive(Debug, Drop)]
pub(crate) struct StoredVersion {
    version: Version,
    entered: u32,
    closed: Option<u32>,
}

impl StoredVersion {
    pub(crate) fn read(alloc: Global, row: &Row) -> Result<StoredVersion, ReadFault>
        ensures { Reads result (λ kept. IsRowOf row.now (entry_of kept)) }
    {
        let object = object_at(row, 0)?;
        let number = count_at(row, 1)?;
        let class = class_at(row, 2)?;
        let first = day_at(row, 3)?;
        let last = last_day_at(row, 4)?;
        let entered = count_at(row, 5)?;
        let closed = optional_count_at(row, 6)?;
        let body = body_at(alloc, row, class)?;
        let Some(version) = version_of(object, number, first, last, body) else {
            return Err(ReadFault::Damaged);
        };
        Ok(StoredVersion {
            version,
            entered,
            closed,
        })
    }

    /// The number of its object, and its own.
    pub(crate) fn identifier(&self) -> (i64, i64)
        ensures { result ≡ identifier_of self.now.version }
    {
        (
            i64::from(self.version.object.number()),
            i64::from(self.version.number),
        )
    }

    /// Which version it is.
    pub(crate) fn place(&self) -> Place
        ensures { result ≡ place_of self.now.version }
    {
        Place::of(&self.version)
    }

    /// Whether it has a last day if and only if it was closed, and was closed at the revision that entered it or a later one, up to the
    /// newest.
    fn is_closed_by(&self, newest: u32) -> bool
        ensures { IsTrue result ↔ IsClosedBy newest self.now.entered self.now.version.last self.now.closed }
    {
        match (self.version.last, self.closed) {
            (None, None) => true,
            (Some(_), Some(closed)) => self.entered <= closed && closed <= newest,
            _ => false,
        }
    }

    /// Whether it was entered and closed at revisions of a register with this newest revision.
    pub(crate) fn has_revisions(&self, newest: u32) -> bool
        ensures { IsTrue result ↔ HasRevisions newest (entry_of self.now) }
    {
        1 <= self.entered && self.entered <= newest && self.is_closed_by(newest)
    }

    /// Whether it is valid, in a register with this newest revision, in the row after `count` others, the last of which has the place
    /// `before`.
    pub(crate) fn keeps_rules(&self, before: Option<Place>, count: usize, newest: u32) -> bool
        ensures { IsTrue result ↔ KeepsRules newest before count (entry_of self.now) }
    {
        count < MOST_VERSIONS as usize
            && follows(before, &self.version)
            && self.has_revisions(newest)
    }

    /// Notes the version, with the revisions that entered and closed it.
    pub(crate) fn note_in(self, gathering: &mut Gathering)
        ensures behind { gathering.new.behind ≡ gathering.old.behind }
        ensures notes { (behind count : ℕ) (entries : List Entry) → Gathers behind count entries gathering.old →
            Gathers behind count (entries ++ entry_of self ∷ []) gathering.new }
    {
        let StoredVersion {
            version,
            entered,
            closed,
        } = self;
        gathering.note(version, entered, closed);
    }

    /// The same, as ledgers give it.
    pub(crate) fn into_entry(self) -> cad_versions::StoredVersion
        requires { IsVersion self.version }
        ensures { result ≡ entry_of self }
    {
        let StoredVersion {
            version,
            entered,
            closed,
        } = self;
        cad_versions::StoredVersion {
            version,
            entered: u64::from(entered),
            closed: closed.map(u64::from),
        }
    }

    /// The version as it was at a revision: a later closing is not seen.
    pub(crate) fn seen_at(self, revision: u32) -> Version
        ensures { result ≡ seen_at revision (entry_of self) }
    {
        let StoredVersion {
            version,
            closed,
            ..
        } = self;
        if closed.is_some_and(|closed| closed <= revision) {
            version
        } else {
            Version {
                last: None,
                ..version
            }
        }
    }
}
