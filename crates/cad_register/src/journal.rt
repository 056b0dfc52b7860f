//! The rows of a register as the commands that made it.

ghost use Rattle.std.specs.Prelude.{◌≤◌, ◌-◌, List, map, IfOk, IfErr};
ghost use Rattle.sqlite_value.specs.Order.{Row};
ghost use Rattle.cad_versions.specs.Entries.{Entry};
ghost use Rattle.cad_register.specs.Damage.{IsCauseIn};
ghost use Rattle.cad_register.specs.StoredVersions.{AreRowsOf, entry_of};
ghost use Rattle.cad_register.specs.JournalReading.{AreSoundRows, IsUnsoundIn, GivesHeld};
ghost use Rattle.cad_register.specs.JournalRows.{GivesCommands};
ghost use Rattle.cad_register.specs.inner.Found.{AreReadOf};
ghost use Rattle.cad_register.specs.inner.Gathering.{slots_of, Gathers, IsGivenBy};

use crate::found::FoundRow;
use crate::gathering::Gathering;
use crate::listing::put_in_order;
use crate::stored_version::StoredVersion;
use cad_versions::{Command, RegisterFault};
use std::alloc::Global;

/// What the versions of rows in this order show of the commands after a revision, in a register whose newest revision is `newest`.
fn gathered(
    alloc: Global,
    found: Vec<FoundRow>,
    behind: u32,
    newest: u32,
) -> Result<Gathering, RegisterFault>
    requires { behind ≤ newest }
    ensures gathers { (rows : List Row) → AreReadOf rows found.items → IfOk result (λ gathering.
        (es : List Entry) × AreRowsOf rows es × Gathers behind (newest - behind) es gathering) }
    ensures cause { (rows : List Row) → AreReadOf rows found.items → IfErr result (IsCauseIn newest rows) }
{
    let mut gathering = Gathering::new(alloc, behind, newest - behind)?;
    let mut before = None;
    let mut count = 0;
    for row in found {
        let stored = row.next(before, count, newest)?;
        before = Some(stored.place());
        stored.note_in(&mut gathering);
        count += 1;
    }
    Ok(gathering)
}

/// The commands, or that these rows are not those of a register.
pub(crate) fn commands_in(gathering: Gathering) -> Result<Vec<Command>, RegisterFault>
    ensures given { IsGivenBy gathering result }
    ensures held { GivesHeld (slots_of gathering.slots) result }
{
    match gathering.commands() {
        Some(commands) => Ok(commands),
        None => Err(RegisterFault::NotARegister),
    }
}

/// The commands after a revision, from all rows of a register, no matter in which order these were read. If a damaged row is named, it is
/// the first one by its identifier, as it is stored.
pub(crate) fn commands_given(
    alloc: Global,
    found: Vec<FoundRow>,
    behind: u32,
    newest: u32,
) -> Result<Vec<Command>, RegisterFault>
    requires { behind ≤ newest }
    ensures { (shown : List Row) → AreReadOf shown found.items → GivesCommands behind newest shown result }
{
    let mut found = found;
    put_in_order(&mut found);
    let gathering = gathered(alloc, found, behind, newest)?;
    commands_in(gathering)
}

/// The versions of rows, each of which is valid in a register with this newest revision, no matter which rows are before it. The first
/// row that is not is named as damaged.
pub(crate) fn sound_versions(
    alloc: Global,
    found: Vec<FoundRow>,
    newest: u32,
) -> Result<Vec<StoredVersion>, RegisterFault>
    ensures sound { (rows : List Row) → AreReadOf rows found.items → IfOk result (λ versions.
        AreSoundRows newest rows (map entry_of versions.items)) }
    ensures cause { (rows : List Row) → AreReadOf rows found.items → IfErr result (IsUnsoundIn newest rows) }
{
    let mut versions = Vec::with_capacity(alloc, found.len())?;
    for row in found {
        versions.push(row.sound(newest)?)?;
    }
    Ok(versions)
}
