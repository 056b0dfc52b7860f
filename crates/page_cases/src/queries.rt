//! Queries: what they ask for, and the links of their pages.

use cad_ask::AskFault;
use cad_parameters::{
    Continuation, Identifier, Pair, ParameterFault, Selection, filter_text, next_target,
    read_identifier, read_pairs, self_target,
};
use std::alloc::{AllocError, Global};

/// The path of the list of features.
const PATH: &str = "/items";

/// What a query asks for, or its first fault; the filter is not read.
pub fn parameters(alloc: Global, query: &str) -> Result<String, AllocError> {
    let pairs = read_pairs(alloc, query.as_bytes())?;
    match Selection::read(&pairs) {
        Err(fault) => fault_words(alloc, fault),
        Ok(selection) => match Continuation::read(&pairs) {
            Err(fault) => fault_words(alloc, fault),
            Ok(continuation) => described(alloc, selection, filter_text(&pairs), continuation),
        },
    }
}

fn fault_words(alloc: Global, fault: ParameterFault) -> Result<String, AllocError> {
    let fault = AskFault::from(fault);
    format!(in alloc; "{} {} {}", fault.number(), fault.name(), fault.word())
}

fn described(
    alloc: Global,
    selection: Selection,
    filter: Option<&str>,
    continuation: Continuation,
) -> Result<String, AllocError> {
    let mut text = String::new(alloc);
    put_described(alloc, selection, filter, continuation, &mut text)?;
    Ok(text)
}

fn put_described(
    alloc: Global,
    selection: Selection,
    filter: Option<&str>,
    continuation: Continuation,
    text: &mut String,
) -> Result<(), AllocError> {
    write!(text, "limit {}", selection.limit)?;
    put_days(selection, text)?;
    put_box(selection, text)?;
    if let Some(filter) = filter {
        write!(text, " filter {filter}")?;
    }
    put_continuation(alloc, continuation, text)
}

fn put_continuation(
    alloc: Global,
    continuation: Continuation,
    text: &mut String,
) -> Result<(), AllocError> {
    if let Some(revision) = continuation.revision {
        write!(text, " revision {revision}")?;
    }
    let Some(after) = continuation.after else {
        return Ok(());
    };
    let after = after.text(alloc)?;
    write!(text, " after {after}")
}

fn put_days(selection: Selection, text: &mut String) -> Result<(), AllocError> {
    let Some(days) = selection.datetime else {
        return Ok(());
    };
    text.push_str(" datetime ")?;
    if let Some(from) = days.from {
        from.put(text)?;
    }
    text.push_str("/")?;
    if let Some(to) = days.to {
        to.put(text)?;
    }
    Ok(())
}

fn put_box(selection: Selection, text: &mut String) -> Result<(), AllocError> {
    let Some(bounds) = selection.bbox else {
        return Ok(());
    };
    write!(text, " bbox {},{}", bounds.x_min, bounds.y_min)?;
    write!(text, ",{},{}", bounds.x_max, bounds.y_max)
}

/// The target of the link to the page itself.
pub fn itself(alloc: Global, query: &str) -> Result<String, AllocError> {
    let pairs = read_pairs(alloc, query.as_bytes())?;
    self_target(alloc, PATH, &pairs)
}

/// The target of the link to the next page.
pub fn next(alloc: Global, query: &str, place: &str) -> Result<String, AllocError> {
    let pairs = read_pairs(alloc, query.as_bytes())?;
    let (revision, last) = place.split_once(' ').unwrap_or((place, ""));
    match (revision.parse(), read_identifier(last)) {
        (Ok(revision), Some(last)) => next_of(alloc, &pairs, revision, last),
        _ => String::from_str(alloc, "no place"),
    }
}

fn next_of(
    alloc: Global,
    pairs: &[Pair],
    revision: u64,
    last: Identifier,
) -> Result<String, AllocError> {
    next_target(alloc, PATH, pairs, revision, last)
}
