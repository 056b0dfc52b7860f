//! The answers to filters.

ghost use Rattle.cad_versions.specs.Listing.{IsListing};

use cad_day::{DatetimeFault, Interval, Relation, asked, holds};
use cad_feature::{Feature, Value, flatten};
use cad_schema::Collection;
use cad_versions::Version;
use cql_filter::{FilterFault, read};
use cql_meaning::{Truth, truth};
use cql_types::Filter;
use std::alloc::{AllocError, Global};

/// What a case asks, without its filter.
#[derive(Clone, Copy)]
enum Question {
    /// The features of a collection; if days are asked, only those whose lifespan meets them.
    Of(Collection, Option<Interval>),
    NoCollection,
    NoDays,
}

/// The days that a text asks for, or none if it asks for none.
fn days_of(text: &str) -> Result<Option<Interval>, AllocError> {
    match asked(text) {
        Ok(days) => Ok(Some(days)),
        Err(DatetimeFault::Memory) => Err(AllocError),
        Err(_) => Ok(None),
    }
}

/// What the name of a collection asks for, with or without `/` and days after it.
fn question_of(name: &str) -> Result<Question, AllocError> {
    let (name, days) = match name.split_once('/') {
        Some((name, days)) => (name, Some(days)),
        None => (name, None),
    };
    let Some(collection) = Collection::read(name) else {
        return Ok(Question::NoCollection);
    };
    let Some(days) = days else {
        return Ok(Question::Of(collection, None));
    };
    match days_of(days)? {
        Some(days) => Ok(Question::Of(collection, Some(days))),
        None => Ok(Question::NoDays),
    }
}

/// Whether the feature's lifespan meets the days.
fn lives_on(feature: &Feature, days: Interval) -> bool {
    for value in &feature.values {
        if let Value::Span(lifespan) = value {
            return holds(Relation::Intersects, **lifespan, days);
        }
    }
    false
}

/// Whether the feature is taken: it lives on the asked days, and the filter is true of it.
fn is_taken(
    alloc: Global,
    filter: &Filter,
    days: Option<Interval>,
    feature: &Feature,
) -> Result<bool, AllocError> {
    if let Some(days) = days {
        if !lives_on(feature, days) {
            return Ok(false);
        }
    }
    Ok(truth(alloc, filter, feature)? == Truth::Yes)
}

/// Appends the word, and after it the identifiers of the features that are taken.
fn put_accepted(
    alloc: Global,
    filter: &Filter,
    days: Option<Interval>,
    features: &[Feature],
    line: &mut String,
) -> Result<(), AllocError> {
    line.push_str("accepted")?;
    for feature in features {
        if is_taken(alloc, filter, days, feature)? {
            let identifier = feature.identifier().text(alloc)?;
            write!(line, " {identifier}")?;
        }
    }
    Ok(())
}

// Appends what the filter takes from the collection's features.
fn put_taken(
    alloc: Global,
    versions: &[Version],
    collection: Collection,
    days: Option<Interval>,
    filter: &Filter,
    line: &mut String,
) -> Result<(), AllocError>
    requires { IsListing versions.now }
{
    let features = flatten(alloc, versions, collection)?;
    put_accepted(alloc, filter, days, &features, line)
}

fn put_filter_answer(
    alloc: Global,
    versions: &[Version],
    collection: Collection,
    days: Option<Interval>,
    text: &str,
    line: &mut String,
) -> Result<(), AllocError>
    requires { IsListing versions.now }
{
    match read(alloc, text, collection) {
        Ok(filter) => {
            let put = put_taken(alloc, versions, collection, days, &filter, line);
            drop(filter);
            put
        }
        Err(FilterFault::Refused(cause)) => write!(line, "{} {}", cause.name(), cause.place()),
        Err(FilterFault::Memory) => Err(AllocError),
    }
}

/// Appends what is printed for a case, answered from these versions.
pub fn put_answer(
    alloc: Global,
    versions: &[Version],
    case: &[u8],
    line: &mut String,
) -> Result<(), AllocError>
    requires { IsListing versions.now }
{
    let end = case.iter().position(|byte| *byte == b' ' || *byte == b'\t');
    let (name, text) = match end {
        Some(end) => (&case[..end], &case[end + 1..]),
        None => (case, b"".as_slice()),
    };
    let Ok(name) = str::from_utf8(name) else {
        return line.push_str("no collection");
    };
    match (question_of(name)?, str::from_utf8(text)) {
        (Question::NoCollection, _) => line.push_str("no collection"),
        (Question::NoDays, _) => line.push_str("no days"),
        (Question::Of(..), Err(_)) => line.push_str("no text"),
        (Question::Of(collection, days), Ok(text)) => {
            put_filter_answer(alloc, versions, collection, days, text, line)
        }
    }
}
