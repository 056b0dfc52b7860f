//! The histories of a register at a start.

use crate::histories::Histories;
use crate::history::{History, are_countable};
use crate::starting::{all_rows, layer, layers};
use cad_schema::Collection;
use cad_versions::StoredVersion;
use std::alloc::{AllocError, Global};

impl History {
    ghost use Rattle.std.specs.Prelude.{◌≡◌, List, [], length, map, IfOk};
    ghost use Rattle.cad_versions.specs.declared.command.Command.{Command};
    ghost use Rattle.cad_versions.specs.AsOf.{all_entries};
    ghost use Rattle.cad_versions.specs.Entries.{version_in};
    ghost use Rattle.cad_versions.specs.Listing.{IsListing};
    ghost use Rattle.cad_versions.specs.Refusals.{AreAccepted};
    ghost use Rattle.cad_history.specs.Registers.{AreRowsOf};

    /// The history of a collection, up to the newest revision, from all versions that a register stores, by object and number. Revisions
    /// have to be below 4,294,967,295, as those of every register are. An error means out of memory.
    pub fn of_register(
        alloc: Global,
        entries: &[StoredVersion],
        newest: u64,
        collection: Collection,
    ) -> Result<History, AllocError>
        requires listing { IsListing (map version_in entries.now) }
        ensures collection { IfOk result (λ history. history.collection ≡ collection) }
        ensures last { IfOk result (λ history. history.last ≡ newest) }
        ensures rows { IfOk result (λ history. (commands : List Command) → AreAccepted [] commands → entries.now ≡ all_entries commands → newest ≡ length commands → AreRowsOf commands history) }
    {
        if newest >= u64::from(u32::MAX) {
            return Err(AllocError);
        }
        let newest = newest as u32;
        let (last, earlier) = all_rows(alloc, entries, newest, collection)?;
        let earlier = layers(alloc, earlier, collection)?;
        let last = layer(alloc, last, collection)?;
        if !are_countable(&last, &earlier) {
            return Err(AllocError);
        }
        Ok(History::of_layers(last, earlier, newest))
    }
}

impl Histories {
    ghost use Rattle.std.specs.Prelude.{◌≡◌, List, [], length, map, IfOk};
    ghost use Rattle.cad_versions.specs.declared.command.Command.{Command};
    ghost use Rattle.cad_versions.specs.AsOf.{all_entries};
    ghost use Rattle.cad_versions.specs.Entries.{version_in};
    ghost use Rattle.cad_versions.specs.Listing.{IsListing};
    ghost use Rattle.cad_versions.specs.Refusals.{AreAccepted};
    ghost use Rattle.cad_history.specs.Histories.{AreAllRowsOf};

    /// The history of each collection, as `History::of_register` makes it. An error means out of memory.
    pub fn of_register(
        alloc: Global,
        entries: &[StoredVersion],
        newest: u64,
    ) -> Result<Histories, AllocError>
        requires listing { IsListing (map version_in entries.now) }
        ensures { IfOk result (λ histories. (commands : List Command) → AreAccepted [] commands → entries.now ≡ all_entries commands → newest ≡ length commands → AreAllRowsOf commands histories) }
    {
        Histories::of_each(alloc, |collection| {
            History::of_register(alloc, entries, newest, collection)
        })
    }
}
