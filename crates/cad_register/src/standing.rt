//! The current state of an object.

ghost use Rattle.std.specs.Prelude.{◌≡◌, List, length, map, IfOk, IfErr};
ghost use Rattle.cad_versions.specs.VersionedObject.{VersionedObject};
ghost use Rattle.cad_register.specs.Outlines.{outline, class_of_version, class_of_first, if_open, opened_last};
ghost use Rattle.cad_register.specs.Naming.{HasNoClass, HasNoDay, FirstHasClass, LastHasDay, TellStanding, IsFaultIn, fault_of_row};

use crate::columns::{ReadFault, class_at, day_at, is_null, number_or_zero};
use cad_day::Day;
use cad_versions::{Class, ObjectId, RegisterFault};
use sqlite::Row;

/// The current state of an object: its class, if it was entered, the first day of its open version, if one is open, and how many versions
/// it has.
#[derive(Clone, Copy, Debug)]
pub(crate) struct ObjectState {
    pub(crate) class: Option<Class>,
    pub(crate) open_since: Option<Day>,
    pub(crate) count: usize,
}

fn row_class(row: &Row) -> Result<Class, ReadFault>
    ensures known { IfOk result (λ class. (v : VersionedObject) → row.now ≡ outline v →
        class ≡ class_of_version v) }
    ensures told { IfOk result (λ _. ¬ HasNoClass row.now) }
    ensures damaged { IfErr result (λ fault. fault ≡ ReadFault.Damaged → HasNoClass row.now) }
{
    class_at(row, 1)
}

/// The first day of a version that is open.
fn row_opened(row: &Row) -> Result<Option<Day>, ReadFault>
    ensures known { IfOk result (λ day. (v : VersionedObject) → row.now ≡ outline v →
        day ≡ if_open v) }
    ensures told { IfOk result (λ _. ¬ HasNoDay row.now) }
    ensures damaged { IfErr result (λ fault. fault ≡ ReadFault.Damaged → HasNoDay row.now) }
{
    if is_null(row, 3) {
        let first = day_at(row, 2)?;
        Ok(Some(first))
    } else {
        Ok(None)
    }
}

/// Why this row of the object gives no answer.
fn row_fault(object: ObjectId, row: &Row, fault: ReadFault) -> RegisterFault
    ensures { result ≡ fault_of_row object row.now fault }
{
    match fault {
        ReadFault::Damaged => RegisterFault::Damaged {
            object: i64::from(object.number()),
            number: number_or_zero(row, 0),
        },
        ReadFault::Memory => RegisterFault::Memory,
    }
}

fn first_class(object: ObjectId, rows: &[Row]) -> Result<Option<Class>, RegisterFault>
    ensures known { IfOk result (λ class. (vs : List VersionedObject) → rows.now ≡ map outline vs →
        class ≡ class_of_first vs) }
    ensures told { IfOk result (λ _. FirstHasClass rows.now) }
    ensures damaged { IfErr result (IsFaultIn object rows.now) }
{
    match rows.first() {
        None => Ok(None),
        Some(row) => match row_class(row) {
            Ok(class) => Ok(Some(class)),
            Err(fault) => Err(row_fault(object, row, fault)),
        },
    }
}

fn last_opened(object: ObjectId, rows: &[Row]) -> Result<Option<Day>, RegisterFault>
    ensures known { IfOk result (λ day. (vs : List VersionedObject) → rows.now ≡ map outline vs →
        day ≡ opened_last vs) }
    ensures told { IfOk result (λ _. LastHasDay rows.now) }
    ensures damaged { FirstHasClass rows.now → IfErr result (IsFaultIn object rows.now) }
{
    match rows.last() {
        None => Ok(None),
        Some(row) => match row_opened(row) {
            Ok(day) => Ok(day),
            Err(fault) => Err(row_fault(object, row, fault)),
        },
    }
}

impl ObjectState {
    /// What the rows of an object say of it. The first or the last of them is named if it gives no answer.
    pub(crate) fn read(object: ObjectId, rows: &[Row]) -> Result<ObjectState, RegisterFault>
        ensures known { IfOk result (λ s. (vs : List VersionedObject) → rows.now ≡ map outline vs →
            (s.class ≡ class_of_first vs) × (s.open_since ≡ opened_last vs) ×
            (s.count ≡ length vs)) }
        ensures told { IfOk result (λ _. TellStanding rows.now) }
        ensures damaged { IfErr result (IsFaultIn object rows.now) }
    {
        let class = first_class(object, rows)?;
        let open_since = last_opened(object, rows)?;
        Ok(ObjectState {
            class,
            open_since,
            count: rows.len(),
        })
    }
}
