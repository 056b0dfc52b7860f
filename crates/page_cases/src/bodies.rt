//! Bodies as bytes: those of pages, of one feature, and of faults.

use crate::pieces::misleading_budget;
use crate::sample::snapshot_at;
use cad_page::{Ask, AskFault, Snapshot, as_bytes};
use cad_parameters::read_identifier;
use cad_schema::Collection;
use cad_versions::Identifier;
use std::alloc::{AllocError, Global};

/// The bytes as they are printed.
fn printed(alloc: Global, bytes: Vec<u8>) -> Result<String, AllocError> {
    match String::from_utf8(bytes) {
        Ok(text) => Ok(text),
        Err(_) => String::from_str(alloc, "no text"),
    }
}

/// The page, and after a space the target of its link to the next one, if it has one.
pub fn page_answer(alloc: Global, ask: &Ask, snapshot: &Snapshot) -> Result<String, AllocError> {
    let body = as_bytes::body(alloc, ask, snapshot)?;
    if let Some(budget) = misleading_budget(alloc, ask, snapshot, &body)? {
        return format!(in alloc; "another page in pieces of {budget}");
    }
    let mut line = printed(alloc, body)?;
    if let Some(target) = as_bytes::next_link(alloc, ask, snapshot)? {
        line.push_str(" ")?;
        line.push_str(printed(alloc, target)?.as_str())?;
    }
    Ok(line)
}

/// The body of the fault of a query.
pub fn fault_answer(alloc: Global, fault: &AskFault) -> Result<String, AllocError> {
    printed(alloc, as_bytes::fault_body(alloc, fault)?)
}

fn found_answer(
    alloc: Global,
    collection: Collection,
    identifier: Identifier,
    snapshot: &Snapshot,
) -> Result<String, AllocError> {
    let body = match snapshot.feature(collection, identifier.object, identifier.number) {
        Some(feature) => as_bytes::feature_body(alloc, collection, feature)?,
        None => as_bytes::word_body(alloc, "no-feature")?,
    };
    printed(alloc, body)
}

/// The body of a feature of the sample, or the one that says that it is not there, by the name of a collection, a space and an identifier.
pub fn feature_answer(alloc: Global, words: &str) -> Result<String, AllocError> {
    let Some((name, identifier)) = words.split_once(' ') else {
        return String::from_str(alloc, "no case");
    };
    let (Some(collection), Some(identifier)) = (Collection::read(name), read_identifier(identifier))
    else {
        return String::from_str(alloc, "no case");
    };
    match snapshot_at(alloc, None)? {
        None => String::from_str(alloc, "no revision"),
        Some(snapshot) => found_answer(alloc, collection, identifier, &snapshot),
    }
}
