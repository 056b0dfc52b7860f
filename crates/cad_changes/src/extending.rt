//! The history of a collection after a command.

ghost use Rattle.std.specs.Prelude.{◌≡◌, ◌+◌, ◌<◌, List, [], ◌∷◌, ◌++◌, length, IfOk};
ghost use Rattle.std.specs.Option.{SomeIff};
ghost use Rattle.cad_versions.specs.declared.command.Command.{Command as CommandOf};
ghost use Rattle.cad_versions.specs.Refusals.{AreAccepted};
ghost use Rattle.cad_schema.specs.declared.collection.Collection.TheVariants.{Units, Parties};
ghost use Rattle.cad_history.specs.Registers.{AreRowsOf};

use crate::touching::touched;
use cad_history::History;
use cad_history::laws::accepted_are_few;
use cad_versions::Command;
use cad_versions::laws::revisions_stay;
use std::alloc::{AllocError, Global};

/// The number in 32 bits, if rows with this last revision may get it. No revision has the greatest number, which ends open periods.
fn number_after(last: u32, revision: u64) -> Option<u32>
    ensures { SomeIff result ((last < revision) × (revision < 4294967295)) revision }
{
    let number = u32::try_from(revision).ok()?;
    if last < number && number < u32::MAX {
        Some(number)
    } else {
        None
    }
}

/// The history after the command, which makes the revision with this number. It is determined by the newest rows of the collection, the
/// units and the parties.
///
/// An error means out of memory, or that the history cannot have a revision of this number: it is not above the last one, or above
/// 4,294,967,294. So many commands are never accepted.
pub fn history_after(
    alloc: Global,
    history: &History,
    units: &History,
    parties: &History,
    command: &Command,
    revision: u64,
) -> Result<History, AllocError>
    requires units { units.now.collection ≡ Units }
    requires parties { parties.now.collection ≡ Parties }
    ensures collection { IfOk result (λ after. after.collection ≡ history.now.collection) }
    ensures rows { IfOk result (λ after. (commands : List CommandOf) → AreAccepted [] (commands ++ command.now ∷ [])
        → AreRowsOf commands history.now → AreRowsOf commands units.now → AreRowsOf commands parties.now
        → revision ≡ length commands + 1
        → AreRowsOf (commands ++ command.now ∷ []) after) }
{
    let Some(number) = number_after(history.last(), revision) else {
        return Err(AllocError);
    };
    let features = history.newest();
    let of_units = units.newest();
    let of_parties = parties.newest();
    let touched = touched(alloc, command, features, of_units, of_parties)?;
    // Earlier revisions stay, and accepted commands are fewer than numbers of revisions.
    revisions_stay();
    accepted_are_few();
    let after = history.next(alloc, number, touched)?;
    Ok(after)
}
