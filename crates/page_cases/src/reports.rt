//! The answers to requests.

use crate::bodies::{fault_answer, page_answer};
use crate::grown::answer_by_each;
use crate::menus::misleading_plan;
use crate::plans::put_plan;
use crate::sample::snapshot_at;
use cad_page::{Ask, AskFault, Report, Snapshot, body, explain, next_link};
use cad_schema::Collection;
use std::alloc::{AllocError, Global};

/// What is shown for a request.
#[derive(Clone, Copy)]
pub enum Shown {
    /// How its page is found, and what that lists.
    Finding,
    /// The page, as it is sent.
    Page,
}

/// From what its revision is made.
#[derive(Clone, Copy)]
pub enum Source {
    /// Of the versions that the ledger lists at the revision.
    Versions,
    /// Of the features at every revision, to which the commands of the sample were added one by one.
    Histories,
}

/// The text before an identifier in a body. Within a text its quotes would have backslashes.
const IDENTIFIER: &str = "\"id\":\"";

// The identifier that the piece begins with, if its end is there. Is there one?
fn put_identifier_of(piece: &str, line: &mut String) -> Result<bool, AllocError> {
    match piece.split_once('"') {
        None => Ok(false),
        Some((identifier, _)) => {
            write!(line, " {identifier}")?;
            Ok(true)
        }
    }
}

// The identifiers in a body. Are there any?
fn put_all_identifiers(body: &str, line: &mut String) -> Result<bool, AllocError> {
    let mut is_any = false;
    for piece in body.split(IDENTIFIER).skip(1) {
        if put_identifier_of(piece, line)? {
            is_any = true;
        }
    }
    Ok(is_any)
}

// The identifiers in a body.
fn put_identifiers(body: &str, line: &mut String) -> Result<(), AllocError> {
    if put_all_identifiers(body, line)? {
        Ok(())
    } else {
        line.push_str(" none")
    }
}

fn put_report(
    collection: Collection,
    report: &Report,
    line: &mut String,
) -> Result<(), AllocError> {
    put_plan(collection, &report.plan, line)?;
    let Report {
        cost,
        candidates,
        examined,
        ..
    } = report;
    write!(
        line,
        " cost {cost} candidates {candidates} examined {examined} gives"
    )
}

fn put_explained(
    alloc: Global,
    ask: &Ask,
    snapshot: &Snapshot,
    line: &mut String,
) -> Result<(), AllocError> {
    let report = explain(alloc, ask, snapshot)?;
    put_report(ask.collection, &report, line)
}

fn put_page(
    alloc: Global,
    ask: &Ask,
    snapshot: &Snapshot,
    line: &mut String,
) -> Result<(), AllocError> {
    let body = body(alloc, ask, snapshot)?;
    put_identifiers(body.as_str(), line)
}

// What the page lists, and whether another follows.
fn listed(alloc: Global, ask: &Ask, snapshot: &Snapshot) -> Result<String, AllocError> {
    let mut line = String::new(alloc);
    put_page(alloc, ask, snapshot, &mut line)?;
    if next_link(alloc, ask, snapshot)?.is_some() {
        line.push_str(" and more")?;
    }
    Ok(line)
}

fn finding_answer(alloc: Global, ask: &Ask, snapshot: &Snapshot) -> Result<String, AllocError> {
    let listed = listed(alloc, ask, snapshot)?;
    if let Some(plan) = misleading_plan(alloc, ask, snapshot, listed.as_str())? {
        return format!(in alloc; "another page by {}", plan.as_str());
    }
    let mut line = String::new(alloc);
    put_explained(alloc, ask, snapshot, &mut line)?;
    line.push_str(listed.as_str())?;
    Ok(line)
}

/// What is shown for the query, by this snapshot.
pub fn shown_by(
    alloc: Global,
    shown: Shown,
    ask: &Ask,
    snapshot: &Snapshot,
) -> Result<String, AllocError> {
    match shown {
        Shown::Finding => finding_answer(alloc, ask, snapshot),
        Shown::Page => page_answer(alloc, ask, snapshot),
    }
}

fn answer_by_versions(alloc: Global, shown: Shown, ask: &Ask) -> Result<String, AllocError> {
    match snapshot_at(alloc, ask.continuation.revision)? {
        None => String::from_str(alloc, "no revision"),
        Some(snapshot) => shown_by(alloc, shown, ask, &snapshot),
    }
}

fn refused_answer(alloc: Global, shown: Shown, fault: &AskFault) -> Result<String, AllocError> {
    match shown {
        Shown::Finding => format!(in alloc; "refused {}", fault.name()),
        Shown::Page => fault_answer(alloc, fault),
    }
}

fn source_answer(
    alloc: Global,
    shown: Shown,
    source: Source,
    ask: &Ask,
) -> Result<String, AllocError> {
    match source {
        Source::Versions => answer_by_versions(alloc, shown, ask),
        Source::Histories => answer_by_each(alloc, shown, ask),
    }
}

fn query_answer(
    alloc: Global,
    shown: Shown,
    source: Source,
    collection: Collection,
    query: &str,
) -> Result<String, AllocError> {
    match Ask::read(alloc, collection, query) {
        Ok(ask) => {
            let answer = source_answer(alloc, shown, source, &ask);
            drop(ask);
            answer
        }
        Err(AskFault::Memory) => Err(AllocError),
        Err(fault) => refused_answer(alloc, shown, &fault),
    }
}

/// What is shown for a request, which is the name of a collection and, after `?`, a query.
pub fn request_answer(
    alloc: Global,
    shown: Shown,
    source: Source,
    target: &str,
) -> Result<String, AllocError> {
    let (name, query) = match target.split_once('?') {
        None => (target, ""),
        Some((name, query)) => (name, query),
    };
    match Collection::read(name) {
        None => String::from_str(alloc, "no case"),
        Some(collection) => query_answer(alloc, shown, source, collection, query),
    }
}
