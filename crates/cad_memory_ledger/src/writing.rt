//! What accepted commands write.

ghost use Rattle.std.specs.Prelude.{◌≡◌, ◌∷◌, [], ◌++◌, ◌<◌, ◌+◌, length, map, MatchResult};
ghost use Rattle.std.specs.List.{AllByRecursion};
ghost use Rattle.cad_day.specs.DayBefore.{day_before as before};
ghost use Rattle.cad_versions.specs.Versions.{begun, history};
ghost use Rattle.cad_versions.specs.Entries.{version_in, entered_at, close_entry, ClosesInTime};

use crate::standing::count_of;
use crate::stored_version::StoredVersion;
use cad_day::Day;
use cad_versions::{Body, ObjectId};
use std::alloc::AllocError;

/// Closes the open version of the object on the day, at this revision.
fn close(kept: &mut [StoredVersion], object: ObjectId, day: Day, revision: u64)
    requires { AllByRecursion (ClosesInTime object day) kept.now }
    ensures { kept.new ≡ map (close_entry object day revision) kept.old }
{
    for version in kept.iter_mut() {
        version.close_if_open(object, day, revision);
    }
}

/// Closes the open version of the object on its last day, at this revision.
pub(crate) fn retire(kept: &mut Vec<StoredVersion>, object: ObjectId, last: Day, revision: u64)
    requires { AllByRecursion (ClosesInTime object last) kept.now.items }
    ensures { kept.new.items ≡ map (close_entry object last revision) kept.old.items }
{
    close(kept, object, last, revision);
}

/// Closes the open version of the object on the day before `first`, and begins the next one.
pub(crate) fn amend(
    kept: &mut Vec<StoredVersion>,
    object: ObjectId,
    first: Day,
    body: Body,
    revision: u64,
) -> Result<(), AllocError>
    requires few { length kept.now.items < 2147483647 }
    requires timely { AllByRecursion (ClosesInTime object (before first)) kept.now.items }
    ensures { MatchResult result (λ _. kept.new.items ≡
        map (close_entry object (before first) revision) kept.old.items ++
        entered_at revision (begun object (length (history object (map version_in kept.old.items)) + 1) first body) ∷ [])
        (λ _. kept.new.items ≡ kept.old.items) }
{
    let number = count_of(kept, object) as u32 + 1;
    kept.reserve(1)?;
    close(kept, object, first.before(), revision);
    kept.push(StoredVersion::new(object, number, first, body, revision))?;
    Ok(())
}
