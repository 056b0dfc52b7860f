//! What a command changes in the tables.

ghost use Rattle.std.specs.Prelude.{◌≡◌, Err, ◌≤◌, ◌<◌, ◌+◌, IfOk, IfErr, OnOk, OnErr, IsTrue};
ghost use Rattle.sqlite.specs.State.{HasCleanDisk};
ghost use Rattle.sqlite.specs.Held.{state};
ghost use Rattle.cad_tables.specs.Steps.{KeepsAll};
ghost use Rattle.cad_versions.specs.Versions.{begun};
ghost use Rattle.cad_register.specs.Changing.{IsNew, IsChangeOf};
ghost use Rattle.cad_register.specs.Leaving.{IsLater};
ghost use Rattle.cad_register.specs.Stands.{Enacts, IsStoreFault};
ghost use Rattle.cad_register.specs.Surviving.{EnactsOrNot};
ghost use Rattle.cad_register.specs.Refusing.{RefusesChange};

use crate::asking::store_fault;
use crate::writing::NewEntry;
use cad_day::Day;
use cad_tables::{Change, Closing};
use cad_versions::{Body, Command, MOST_NUMBER, ObjectId, RegisterFault, Version};
use sqlite::{Alter, Connection};
use std::alloc::{AllocError, Global};

/// The number of the next version of an object that has this many.
pub(crate) fn next_number(count: usize) -> u32
    ensures positive { 1 ≤ result }
    ensures small { result ≤ 2147483647 }
    ensures next { count < 2147483647 → result ≡ count + 1 }
{
    if count < MOST_NUMBER as usize {
        count as u32 + 1
    } else {
        MOST_NUMBER
    }
}

fn begin(
    alloc: Global,
    object: ObjectId,
    number: u32,
    first: Day,
    body: Body,
    revision: u32,
) -> Result<NewEntry, AllocError>
    requires positive { 1 ≤ number }
    requires small { number ≤ 2147483647 }
    ensures { IfOk result (IsNew (begun object number first body) revision) }
{
    let version = Version {
        object,
        number,
        first,
        last: None,
        body,
    };
    NewEntry::new(alloc, version, revision)
}

/// What the command changes at this revision, if the next version of its object has this number.
pub(crate) fn change_of(
    alloc: Global,
    command: Command,
    number: u32,
    revision: u32,
) -> Result<Change<NewEntry>, AllocError>
    requires positive { 1 ≤ number }
    requires small { number ≤ 2147483647 }
    ensures { IfOk result (IsChangeOf command number revision) }
{
    match command {
        Command::Enter {
            object,
            first,
            body,
        } => {
            let entry = begin(alloc, object, 1, first, body, revision)?;
            Ok(Change::Enter(entry))
        }
        Command::Amend {
            object,
            first,
            body,
        } => {
            let closing = Closing {
                object: object.number(),
                last: first.number() - 1,
            };
            let entry = begin(alloc, object, number, first, body, revision)?;
            Ok(Change::Amend {
                closing,
                line: entry,
            })
        }
        Command::Retire { object, last } => Ok(Change::Retire(Closing {
            object: object.number(),
            last: last.number(),
        })),
    }
}

/// Writes what the command changes, or nothing.
pub(crate) fn enact<S: Alter>(
    alloc: Global,
    connection: &mut Connection<S>,
    command: Command,
    number: u32,
    revision: u32,
) -> Result<(), RegisterFault>
    requires positive { 1 ≤ number }
    requires small { number ≤ 2147483647 }
    ensures enacted { HasCleanDisk (state S.Store connection.new) →
        OnOk result (Enacts (state S.Store connection.old) (state S.Store connection.new) command number revision) }
    ensures cause { IfErr result IsStoreFault }
    ensures unchanged { HasCleanDisk (state S.Store connection.new) →
        IsTrue (state S.Store connection.new).is_open →
        OnErr result (KeepsAll (state S.Store connection.old) (state S.Store connection.new)) }
    ensures store { HasCleanDisk (state S.Store connection.new) → result ≡ Err RegisterFault.Store →
        RefusesChange S.Store connection.old connection.new command revision }
    ensures crash { HasCleanDisk (state S.Store connection.new) →
        EnactsOrNot (state S.Store connection.old) (state S.Store connection.new) command number revision }
    ensures later { IsLater (state S.Store connection.old) (state S.Store connection.new) }
{
    let change = change_of(alloc, command, number, revision)?;
    let written = cad_tables::write(connection, &change, revision);
    drop(change);
    match written {
        Ok(()) => Ok(()),
        Err(fault) => Err(store_fault(fault)),
    }
}
