//! What is read of a row.

ghost use Rattle.std.specs.Prelude.{◌≡◌, MatchResult};
ghost use Rattle.cad_register.specs.inner.Found.{IsReadOf, IsJudged, identifier_of, damaged_row, damage_named};
ghost use Rattle.sqlite_value.specs.Order.{Row as SqlRow};
ghost use Rattle.cad_versions.specs.Entries.{Entry};
ghost use Rattle.cad_register.specs.Damage.{damage_of};
ghost use Rattle.cad_register.specs.StoredVersions.{entry_of};
ghost use Rattle.cad_register.specs.JournalReading.{IsSoundRow};

use crate::columns::{ReadFault, number_or_zero};
use crate::place::Place;
use crate::stored_version::StoredVersion;
use cad_tables::Reader;
use cad_versions::RegisterFault;
use sqlite::Row;
use std::alloc::{AllocError, Global};

/// What is read of a row as soon as the database comes to it, and kept in its place.
#[derive(Debug, Drop)]
pub(crate) enum FoundRow {
    /// The version that the row represents.
    Version(StoredVersion),
    /// The row represents no version.
    Damaged {
        /// The object, as it is stored.
        object: i64,
        /// The number, as it is stored.
        number: i64,
    },
}

/// What is read of a row that represents no version.
fn damaged(row: &Row) -> FoundRow
    ensures { result ≡ damaged_row row.now }
{
    FoundRow::Damaged {
        object: number_or_zero(row, 0),
        number: number_or_zero(row, 1),
    }
}

impl Reader for FoundRow {
    ghost reads = { IsReadOf };

    fn read(alloc: Global, row: &Row) -> Result<FoundRow, AllocError> {
        match StoredVersion::read(alloc, row) {
            Ok(kept) => Ok(FoundRow::Version(kept)),
            Err(ReadFault::Damaged) => Ok(damaged(row)),
            Err(ReadFault::Memory) => Err(AllocError),
        }
    }
}

impl FoundRow {
    /// The object and the number of the row, as they are stored.
    pub(crate) fn identifier(&self) -> (i64, i64)
        ensures { result ≡ identifier_of self.now }
    {
        match self {
            FoundRow::Version(kept) => kept.identifier(),
            FoundRow::Damaged { object, number } => (*object, *number),
        }
    }

    /// The fault that names the row.
    fn damage(&self) -> RegisterFault
        ensures { result ≡ damage_named self.now }
    {
        let (object, number) = self.identifier();
        RegisterFault::Damaged { object, number }
    }

    /// The version of a row that is valid in its place, in a register with this newest revision, after `count` other rows, the last of
    /// which has the place `before`. Any other row is named as damaged.
    pub(crate) fn next(
        self,
        before: Option<Place>,
        count: usize,
        newest: u32,
    ) -> Result<StoredVersion, RegisterFault>
        ensures { (row : SqlRow) → IsReadOf row self → IsJudged newest before count row result }
    {
        let damage = self.damage();
        let FoundRow::Version(kept) = self else {
            return Err(damage);
        };
        if kept.keeps_rules(before, count, newest) {
            return Ok(kept);
        }
        drop(kept);
        Err(damage)
    }

    /// The version of a row that is valid in a register with this newest revision, no matter which rows are before it. Any other row is
    /// named as damaged.
    pub(crate) fn sound(self, newest: u32) -> Result<StoredVersion, RegisterFault>
        ensures { (row : SqlRow) → IsReadOf row self → MatchResult result (λ kept. IsSoundRow newest row (entry_of kept))
            (λ fault. (fault ≡ damage_of row) × ((e : Entry) → ¬ IsSoundRow newest row e)) }
    {
        let damage = self.damage();
        let FoundRow::Version(kept) = self else {
            return Err(damage);
        };
        if kept.has_revisions(newest) {
            return Ok(kept);
        }
        drop(kept);
        Err(damage)
    }
}
