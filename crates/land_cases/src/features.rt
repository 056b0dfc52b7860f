//! Commands in lines of the land office, and the features of the last revision.
//!
//! The lines are entered into a ledger of their own, and answered as the office does. Then, collection by collection, each feature is printed
//! on a line of its own, as
//!
//! ```text
//! units {"geometry":null,"id":"11.1","properties":{"begin":"2000-01-01","end":null,"name":null,"number":1,"object":11},"type":"Feature"}
//! ```

ghost use Rattle.cad_versions.specs.Listing.{IsListing};

use crate::office_lines::enter_lines;
use crate::stop::Stop;
use cad_feature::flatten;
use cad_json::feature_text;
use cad_memory_ledger::MemoryLedger;
use cad_schema::Collection;
use cad_versions::{Ledger, Version};
use std::io;
use std::io::{Error, ErrorKind};

fn print_features(rt: &HostRuntime, versions: &[Version], collection: Collection) -> io::Result<()>
    requires { IsListing versions.now }
{
    let features = flatten(rt.alloc(), versions, collection)?;
    for feature in &features {
        let text = feature_text(rt.alloc(), collection, feature)?;
        let name = collection.name();
        println!(rt; "{name} {text}")?;
    }
    Ok(())
}

fn print_ledger(rt: &HostRuntime, ledger: &mut MemoryLedger) -> io::Result<()> {
    let revision = ledger.revision();
    let Ok(versions) = ledger.as_of(revision) else {
        return Err(Error::from(ErrorKind::OutOfMemory));
    };
    for collection in Collection::ALL {
        print_features(rt, &versions, collection)?;
    }
    Ok(())
}

/// Enters the lines, and prints the answers and the features.
pub(crate) fn print_answers(rt: &HostRuntime, lines: &[u8]) -> Result<(), Stop> {
    let mut ledger = MemoryLedger::new(rt.alloc());
    enter_lines(rt, lines, &mut ledger)?;
    print_ledger(rt, &mut ledger)?;
    Ok(())
}
