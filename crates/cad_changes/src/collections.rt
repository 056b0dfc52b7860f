//! The histories of all collections after a command.

ghost use Rattle.std.specs.Prelude.{◌≡◌, ◌+◌, List, [], ◌∷◌, ◌++◌, length, IfOk};
ghost use Rattle.cad_versions.specs.declared.command.Command.{Command as CommandOf};
ghost use Rattle.cad_versions.specs.Refusals.{AreAccepted};
ghost use Rattle.cad_history.specs.Histories.{AreAllRowsOf};
ghost use Rattle.cad_history.specs.Registers.{AreRowsOf};

use crate::extending::history_after;
use cad_history::{Histories, History};
use cad_schema::Collection;
use cad_versions::Command;
use std::alloc::{AllocError, Global};

/// The history of the collection after the command.
fn history_in(
    alloc: Global,
    histories: &Histories,
    command: &Command,
    revision: u64,
    collection: Collection,
) -> Result<History, AllocError>
    ensures collection { IfOk result (λ after. after.collection ≡ collection) }
    ensures rows { IfOk result (λ after. (commands : List CommandOf) → AreAccepted [] (commands ++ command.now ∷ [])
        → AreAllRowsOf commands histories.now → revision ≡ length commands + 1
        → AreRowsOf (commands ++ command.now ∷ []) after) }
{
    let history = histories.of(collection);
    let units = histories.of(Collection::Units);
    let parties = histories.of(Collection::Parties);
    let after = history_after(alloc, history, units, parties, command, revision)?;
    Ok(after)
}

/// The histories after the command, which makes the revision with this number. An error means the same as that of [`history_after`].
pub fn histories_after(
    alloc: Global,
    histories: &Histories,
    command: &Command,
    revision: u64,
) -> Result<Histories, AllocError>
    ensures { IfOk result (λ next. (commands : List CommandOf) → AreAccepted [] (commands ++ command.now ∷ [])
        → AreAllRowsOf commands histories.now → revision ≡ length commands + 1
        → AreAllRowsOf (commands ++ command.now ∷ []) next) }
{
    Histories::of_each(alloc, |collection| {
        history_in(alloc, histories, command, revision, collection)
    })
}
