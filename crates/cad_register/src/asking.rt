//! What the tables say of a register.

ghost use Rattle.std.specs.Prelude.{◌≡◌, ◌≤◌, ◌-◌, ◌∷◌, [], List, length, map, take, drop, pos, Some, IfOk, IfErr, OnOk};
ghost use Rattle.sqlite.specs.State.{HasCleanDisk, FailsToQuery};
ghost use Rattle.sqlite.specs.declared.error.Error.{Error};
ghost use Rattle.sqlite_value.specs.declared.value.Value.TheVariants.{Int};
ghost use Rattle.cad_tables.specs.Texts.{listing_text, range_text};
ghost use Rattle.cad_tables.specs.Opening.{IsSettled};
ghost use Rattle.sqlite.specs.Held.{state};
ghost use Rattle.cad_versions.specs.Keeping.{IsAnswered};
ghost use Rattle.cad_versions.specs.Versions.{versions};
ghost use Rattle.cad_versions.specs.AsOf.{as_of, all_entries};
ghost use Rattle.cad_versions.specs.Listing.{IsListing};
ghost use Rattle.cad_versions.specs.Entries.{entries_of as entries_made, version_in};
ghost use Rattle.cad_register.specs.Outlines.{IsStanding};
ghost use Rattle.cad_register.specs.Stands.{Tells, IsStoreFault, IsReadingFault};
ghost use Rattle.cad_register.specs.Damage.{ReadsRows, ReadsStored};
ghost use Rattle.cad_register.specs.JournalRows.{GivesJournal, IsJournalFault};
ghost use Rattle.cad_register.specs.JournalReading.{ReadsSound};
ghost use Rattle.cad_register.specs.StoredVersions.{entry_of};
ghost use Rattle.cad_register.specs.Leaving.{AsksOnly};
ghost use Rattle.cad_register.specs.Refusing.{Asks, IsForObject, IsForLines, IsNotForMemory, history_questions, register_fault_of};
ghost use Rattle.cad_register.specs.Naming.{TellAll, NamesFirst};
ghost use Rattle.cad_register.specs.inner.Inquiring.{Inquires};

use crate::journal::{commands_given, sound_versions};
use crate::listing::{listed, listed_entries};
use crate::standing::ObjectState;
use crate::stored_version::StoredVersion;
use cad_tables::TableFault;
use cad_versions::{Command, ObjectId, RegisterFault, Version};
use sqlite::{Alter, Connection};
use std::alloc::Global;

pub(crate) fn store_fault(fault: TableFault) -> RegisterFault
    ensures cause { IsStoreFault result }
    ensures told { result ≡ register_fault_of fault }
{
    match fault {
        TableFault::Memory => RegisterFault::Memory,
        TableFault::Store(_) => RegisterFault::Store,
    }
}

/// The current state of an object, from its rows alone.
pub(crate) fn standing_of<S: Alter>(
    connection: &mut Connection<S>,
    object: ObjectId,
) -> Result<ObjectState, RegisterFault>
    ensures inquires { Inquires S.Store connection.old connection.new (IsForObject object)
        (λ commands standing. IsStanding (versions commands) object standing)
        (λ commands fault. IsStoreFault fault) result }
    ensures still { HasCleanDisk (state S.Store connection.new) →
        IsAnswered result → IsSettled S.Store connection.old connection.new }
    ensures shown { IfOk result (λ _. TellAll S.Store connection.new (history_questions (Some object)) connection.old connection.new) }
    ensures damaged { IfErr result (NamesFirst S.Store connection.old connection.new (history_questions (Some object))) }
{
    match cad_tables::history(connection, object.number()) {
        Ok(rows) => ObjectState::read(object, &rows),
        Err(fault) => Err(store_fault(fault)),
    }
}

/// The versions at a revision of a register, in the order of identifiers; `newest` is the newest revision.
pub(crate) fn versions_of<S: Alter>(
    alloc: Global,
    connection: &mut Connection<S>,
    revision: u32,
    newest: u32,
) -> Result<Vec<Version>, RegisterFault>
    ensures told { HasCleanDisk (state S.Store connection.new) →
        Tells (state S.Store connection.old) (state S.Store connection.new) result
        (λ commands found. revision ≤ length commands → found.items ≡ as_of revision commands)
        (λ commands fault. newest ≡ length commands → IsStoreFault fault) }
    ensures listed { IfOk result (λ found. IsListing found.items) }
    ensures store { HasCleanDisk (state S.Store connection.new) → result ≡ Err RegisterFault.Store →
        (e : Error) × IsNotForMemory e ×
        FailsToQuery listing_text (Int (pos revision) ∷ []) (state S.Store connection.old) (state S.Store connection.new) e }
    ensures asked { HasCleanDisk (state S.Store connection.new) →
        Asks S.Store connection.old connection.new (IsForLines revision) result }
    ensures still { HasCleanDisk (state S.Store connection.new) →
        IsAnswered result → IsSettled S.Store connection.old connection.new }
    ensures leaves { AsksOnly (state S.Store connection.old) (state S.Store connection.new) result }
    ensures cause { IfErr result IsReadingFault }
    ensures read { ReadsRows (state S.Store connection.old) (state S.Store connection.new) revision newest result }
{
    match cad_tables::listing(alloc, connection, revision) {
        Ok(found) => listed(alloc, found, revision, newest),
        Err(fault) => Err(store_fault(fault)),
    }
}

/// All stored versions of a register, in the order of identifiers; `newest` is the newest revision.
pub(crate) fn entries_of<S: Alter>(
    alloc: Global,
    connection: &mut Connection<S>,
    newest: u32,
) -> Result<Vec<cad_versions::StoredVersion>, RegisterFault>
    ensures given { HasCleanDisk (state S.Store connection.new) →
        Tells (state S.Store connection.old) (state S.Store connection.new) result
        (λ commands found. newest ≡ length commands → found.items ≡ all_entries commands)
        (λ commands fault. newest ≡ length commands → IsStoreFault fault) }
    ensures listed { IfOk result (λ found. IsListing (map version_in found.items)) }
    ensures store { HasCleanDisk (state S.Store connection.new) → result ≡ Err RegisterFault.Store →
        (e : Error) × IsNotForMemory e ×
        FailsToQuery listing_text (Int (pos newest) ∷ []) (state S.Store connection.old) (state S.Store connection.new) e }
    ensures still { HasCleanDisk (state S.Store connection.new) →
        IsAnswered result → IsSettled S.Store connection.old connection.new }
    ensures leaves { AsksOnly (state S.Store connection.old) (state S.Store connection.new) result }
    ensures cause { IfErr result IsReadingFault }
    ensures read { ReadsStored (state S.Store connection.old) (state S.Store connection.new) newest result }
{
    match cad_tables::listing(alloc, connection, newest) {
        Ok(found) => listed_entries(alloc, found, newest),
        Err(fault) => Err(store_fault(fault)),
    }
}

/// The commands after the revision `behind` of a register; `newest` is the newest revision.
pub(crate) fn commands_behind<S: Alter>(
    alloc: Global,
    connection: &mut Connection<S>,
    behind: u32,
    newest: u32,
) -> Result<Vec<Command>, RegisterFault>
    requires { behind ≤ newest }
    ensures given { HasCleanDisk (state S.Store connection.new) →
        Tells (state S.Store connection.old) (state S.Store connection.new) result
        (λ commands found. newest ≡ length commands → found.items ≡ drop behind commands)
        (λ commands fault. newest ≡ length commands → IsStoreFault fault) }
    ensures store { HasCleanDisk (state S.Store connection.new) → result ≡ Err RegisterFault.Store →
        (e : Error) × IsNotForMemory e ×
        FailsToQuery listing_text (Int (pos newest) ∷ []) (state S.Store connection.old) (state S.Store connection.new) e }
    ensures still { HasCleanDisk (state S.Store connection.new) →
        OnOk result (IsSettled S.Store connection.old connection.new) }
    ensures leaves { AsksOnly (state S.Store connection.old) (state S.Store connection.new) result }
    ensures cause { IfErr result IsJournalFault }
    ensures read { GivesJournal (state S.Store connection.old) (state S.Store connection.new) behind newest result }
{
    match cad_tables::listing(alloc, connection, newest) {
        Ok(found) => commands_given(alloc, found, behind, newest),
        Err(fault) => Err(store_fault(fault)),
    }
}

/// The versions at the places behind one, up to another, of a register of this newest revision, the oldest first.
pub(crate) fn versions_between<S: Alter>(
    alloc: Global,
    connection: &mut Connection<S>,
    behind: u32,
    up_to: u32,
    newest: u32,
) -> Result<Vec<StoredVersion>, RegisterFault>
    ensures told { HasCleanDisk (state S.Store connection.new) →
        Tells (state S.Store connection.old) (state S.Store connection.new) result
        (λ commands found. map entry_of found.items ≡ take (up_to - behind) (drop behind (entries_made commands)))
        (λ commands fault. newest ≡ length commands → IsStoreFault fault) }
    ensures store { HasCleanDisk (state S.Store connection.new) → result ≡ Err RegisterFault.Store →
        (e : Error) × IsNotForMemory e ×
        FailsToQuery range_text (Int (pos behind) ∷ Int (pos up_to) ∷ []) (state S.Store connection.old) (state S.Store connection.new) e }
    ensures still { HasCleanDisk (state S.Store connection.new) →
        OnOk result (IsSettled S.Store connection.old connection.new) }
    ensures leaves { AsksOnly (state S.Store connection.old) (state S.Store connection.new) result }
    ensures cause { IfErr result IsReadingFault }
    ensures read { ReadsSound (state S.Store connection.old) (state S.Store connection.new) behind up_to newest result }
{
    match cad_tables::listing_between(alloc, connection, behind, up_to) {
        Ok(found) => sound_versions(alloc, found, newest),
        Err(fault) => Err(store_fault(fault)),
    }
}
