//! Commands in lines of the land office, and the features of each revision, by the histories that are made of the stored versions.
//!
//! The lines are entered into a ledger of their own, and answered as the office does. The history of each collection is made once, from the
//! versions that the ledger stores. Then, collection by collection and revision by revision, each feature is printed on a line of its own, as
//!
//! ```text
//! 1 units {"geometry":null,"id":"11.1","properties":{"begin":"2000-01-01","end":null,"name":null,"number":1,"object":11},"type":"Feature"}
//! ```

ghost use Rattle.std.specs.Prelude.{map, IfOk};
ghost use Rattle.cad_versions.specs.Entries.{version_in};
ghost use Rattle.cad_versions.specs.Listing.{IsListing};

use crate::office_lines::enter_lines;
use crate::stop::Stop;
use cad_history::{FeaturesAt, History};
use cad_json::feature_text;
use cad_memory_ledger::MemoryLedger;
use cad_schema::Collection;
use cad_versions::{HistoryLedger, Ledger, StoredVersion, Version};
use std::io;
use std::io::{Error, ErrorKind};

/// The versions that the ledger stores.
fn stored_versions<L: HistoryLedger>(ledger: &mut L) -> io::Result<Vec<StoredVersion>>
    ensures { IfOk result (λ stored. IsListing (map version_in stored.items)) }
{
    let Ok(stored) = ledger.stored_versions() else {
        return Err(Error::from(ErrorKind::OutOfMemory));
    };
    Ok(stored)
}

/// Prints the version as a feature, if it is one of those of the revision.
pub(crate) fn print_feature(
    rt: &HostRuntime,
    features: &FeaturesAt<'_>,
    revision: u64,
    version: &Version,
) -> io::Result<()> {
    let collection = features.collection();
    let name = collection.name();
    if let Some(feature) = features.feature(version.object, version.number) {
        let text = feature_text(rt.alloc(), collection, feature)?;
        println!(rt; "{revision} {name} {text}")?;
    }
    Ok(())
}

/// Prints the features of the revision, each of which is a version that is stored.
fn print_features(
    rt: &HostRuntime,
    features: &FeaturesAt<'_>,
    revision: u64,
    entries: &[StoredVersion],
) -> io::Result<()> {
    for entry in entries {
        print_feature(rt, features, revision, &entry.version)?;
    }
    Ok(())
}

fn print_history(
    rt: &HostRuntime,
    entries: &[StoredVersion],
    newest: u64,
    collection: Collection,
) -> io::Result<()>
    requires { IsListing (map version_in entries.now) }
{
    let history = History::of_register(rt.alloc(), entries, newest, collection)?;
    for revision in 0..=newest {
        print_features(rt, &FeaturesAt::of(&history, revision), revision, entries)?;
    }
    Ok(())
}

/// Prints the features of each revision of the ledger.
pub(crate) fn print_ledger<L: HistoryLedger>(rt: &HostRuntime, ledger: &mut L) -> io::Result<()> {
    let newest = ledger.revision();
    let entries = stored_versions(ledger)?;
    for collection in Collection::ALL {
        print_history(rt, &entries, newest, collection)?;
    }
    Ok(())
}

/// Enters the lines, and prints the answers and the features of each revision.
pub(crate) fn print_answers(rt: &HostRuntime, lines: &[u8]) -> Result<(), Stop> {
    let mut ledger = MemoryLedger::new(rt.alloc());
    enter_lines(rt, lines, &mut ledger)?;
    print_ledger(rt, &mut ledger)?;
    Ok(())
}
