//! Lines with cases, and their answers.

ghost use Rattle.cad_versions.specs.Listing.{IsListing};

use crate::answers::plans_answer;
use crate::bodies::feature_answer;
use crate::reports::{Shown, Source, request_answer};
use crate::{fixed_bodies, queries};
use cad_feature::flatten;
use cad_run::Layer;
use cad_schema::{Collection, find_property};
use cad_shape::Bounds;
use cad_versions::Version;
use cql_filter::{FilterFault, read};
use cql_rewrite::box_condition;
use cql_types::Filter;
use std::alloc::{AllocError, Global};

fn asked_answer(
    alloc: Global,
    versions: &[Version],
    collection: Collection,
    filter: &Filter,
) -> Result<String, AllocError>
    requires { IsListing versions.now }
{
    let features = flatten(alloc, versions, collection)?;
    if features.len() > 1000 {
        return String::from_str(alloc, "no case");
    }
    let layer = Layer::build(alloc, features, collection)?;
    plans_answer(alloc, filter, &layer)
}

// The window of four numbers that are separated by commas.
fn window(words: &str) -> Option<Bounds> {
    let mut numbers = words.split(',');
    let x_min = numbers.next()?.parse::<i64>().ok()?;
    let y_min = numbers.next()?.parse::<i64>().ok()?;
    let x_max = numbers.next()?.parse::<i64>().ok()?;
    let y_max = numbers.next()?.parse::<i64>().ok()?;
    Bounds::new(x_min, y_min, x_max, y_max)
}

// The filter with the window, if one is asked for.
fn windowed(
    alloc: Global,
    filter: Filter,
    collection: Collection,
    asked: Option<Bounds>,
) -> Result<Filter, AllocError> {
    match asked {
        None => Ok(filter),
        Some(bounds) => {
            let geometry = match find_property(collection, "geometry") {
                Some((place, _)) => Some(place),
                None => None,
            };
            let mut parts = Vec::new(alloc);
            parts.push(filter)?;
            parts.push(box_condition(geometry, bounds))?;
            Ok(Filter::And(parts))
        }
    }
}

fn case_answer(
    alloc: Global,
    versions: &[Version],
    collection: Collection,
    asked: Option<Bounds>,
    text: &str,
) -> Result<String, AllocError>
    requires { IsListing versions.now }
{
    match read(alloc, text, collection) {
        Ok(filter) => {
            let filter = windowed(alloc, filter, collection, asked)?;
            let answer = asked_answer(alloc, versions, collection, &filter);
            drop(filter);
            answer
        }
        Err(FilterFault::Refused(_)) => String::from_str(alloc, "refused"),
        Err(FilterFault::Memory) => Err(AllocError),
    }
}

fn filter_answer(
    alloc: Global,
    versions: &[Version],
    target: &str,
    text: &str,
) -> Result<String, AllocError>
    requires { IsListing versions.now }
{
    let (name, asked) = match target.split_once('/') {
        None => (target, None),
        Some((name, words)) => match window(words) {
            None => return String::from_str(alloc, "no case"),
            Some(bounds) => (name, Some(bounds)),
        },
    };
    match Collection::read(name) {
        None => String::from_str(alloc, "no case"),
        Some(collection) => case_answer(alloc, versions, collection, asked, text),
    }
}

/// The answer to a question about parameters, links or bodies without features, if it is one.
fn parameter_answer(alloc: Global, word: &str, rest: &str) -> Result<Option<String>, AllocError> {
    let (first, second) = rest.split_once(' ').unwrap_or((rest, ""));
    let answer = match word {
        "asks" => queries::parameters(alloc, rest)?,
        "self" => queries::itself(alloc, rest)?,
        "next" => queries::next(alloc, first, second)?,
        "body" => fixed_bodies::body(alloc, rest)?,
        "word" => cad_json::word_body(alloc, rest)?,
        "fault" => fixed_bodies::fault(alloc, first, second)?,
        _ => return Ok(None),
    };
    Ok(Some(format!(in alloc; "{word} {rest}: {answer}")?))
}

/// What is printed for a case, answered from these versions.
pub fn answer(alloc: Global, versions: &[Version], line: &[u8]) -> Result<String, AllocError>
    requires { IsListing versions.now }
{
    let Ok(line) = str::from_utf8(line) else {
        return String::from_str(alloc, "no case");
    };
    let Some((word, target)) = line.split_once(' ') else {
        return String::from_str(alloc, "no case");
    };
    if let Some(answer) = parameter_answer(alloc, word, target)? {
        return Ok(answer);
    }
    match word {
        "explain" => request_answer(alloc, Shown::Finding, Source::Versions, target),
        "page" => request_answer(alloc, Shown::Page, Source::Versions, target),
        "grown" => request_answer(alloc, Shown::Page, Source::Histories, target),
        "grown-explain" => request_answer(alloc, Shown::Finding, Source::Histories, target),
        "feature" => feature_answer(alloc, target),
        _ => filter_answer(alloc, versions, word, target),
    }
}
