//! The answers about normal forms.

ghost use Rattle.cad_versions.specs.Listing.{IsListing};

use crate::edges::put_range;
use cad_feature::{Feature, flatten};
use cad_range::lies_in;
use cad_schema::Collection;
use cad_versions::Version;
use cql_filter::{FilterFault, read};
use cql_meaning::{Truth, truth};
use cql_rewrite::{Normal, normal, test};
use cql_types::Filter;
use std::alloc::{AllocError, Global};

fn constant_word(form: &Normal) -> &'static str {
    match form.is_constant() {
        Some(true) => "true ",
        Some(false) => "false ",
        None => "open ",
    }
}

fn put_named(
    alloc: Global,
    word: &str,
    feature: &Feature,
    line: &mut String,
) -> Result<(), AllocError> {
    let identifier = feature.identifier().text(alloc)?;
    write!(line, "{word} {identifier}")
}

/// What is wrong with the form on this feature, in a word, if something is.
fn fault_of(
    alloc: Global,
    filter: &Filter,
    form: &Normal,
    feature: &Feature,
) -> Result<Option<&'static str>, AllocError> {
    let is_met = test(alloc, form, feature)?;
    let is_meant = truth(alloc, filter, feature)? == Truth::Yes;
    if is_met != is_meant || form.is_constant() == Some(!is_met) {
        return Ok(Some("differs"));
    }
    match form.range() {
        Some(range) if is_met && !lies_in(range, feature) => Ok(Some("outside")),
        _ => Ok(None),
    }
}

/// Appends what the form is and the range that it offers.
fn put_form(collection: Collection, form: &Normal, line: &mut String) -> Result<(), AllocError> {
    line.push_str(constant_word(form))?;
    match form.range() {
        Some(range) => put_range(collection, range, line),
        None => line.push_str("none"),
    }
}

/// Appends the identifiers of the features that meet the form. If one has a fault, the line has nothing but that fault.
fn put_met(
    alloc: Global,
    filter: &Filter,
    form: &Normal,
    features: &[Feature],
    line: &mut String,
) -> Result<(), AllocError> {
    for feature in features {
        if let Some(fault) = fault_of(alloc, filter, form, feature)? {
            line.clear();
            return put_named(alloc, fault, feature, line);
        }
        if test(alloc, form, feature)? {
            put_named(alloc, "", feature, line)?;
        }
    }
    Ok(())
}

fn put_form_answer(
    alloc: Global,
    collection: Collection,
    filter: &Filter,
    form: &Normal,
    features: &[Feature],
    line: &mut String,
) -> Result<(), AllocError> {
    put_form(collection, form, line)?;
    line.push_str(" yes")?;
    put_met(alloc, filter, form, features, line)
}

/// Appends the answer to a filter, by its normal form.
fn put_filter_answer(
    alloc: Global,
    versions: &[Version],
    collection: Collection,
    filter: &Filter,
    line: &mut String,
) -> Result<(), AllocError>
    requires { IsListing versions.now }
{
    let features = flatten(alloc, versions, collection)?;
    let form = normal(alloc, filter)?;
    let put = put_form_answer(alloc, collection, filter, &form, &features, line);
    drop(form);
    put
}

fn put_text_answer(
    alloc: Global,
    versions: &[Version],
    collection: Collection,
    text: &str,
    line: &mut String,
) -> Result<(), AllocError>
    requires { IsListing versions.now }
{
    match read(alloc, text, collection) {
        Ok(filter) => {
            let put = put_filter_answer(alloc, versions, collection, &filter, line);
            drop(filter);
            put
        }
        Err(FilterFault::Refused(_)) => line.push_str("refused"),
        Err(FilterFault::Memory) => Err(AllocError),
    }
}

fn collection_of(name: &[u8]) -> Option<Collection> {
    let end = name.iter().position(|byte| *byte == b'/');
    let name = match end {
        Some(end) => &name[..end],
        None => name,
    };
    Collection::read(str::from_utf8(name).ok()?)
}

/// Appends what is printed for a case, answered from these versions.
pub fn put_answer(
    alloc: Global,
    versions: &[Version],
    case: &[u8],
    line: &mut String,
) -> Result<(), AllocError>
    requires { IsListing versions.now }
{
    let end = case.iter().position(|byte| *byte == b' ' || *byte == b'\t');
    let (name, text) = match end {
        Some(end) => (&case[..end], &case[end + 1..]),
        None => (case, b"".as_slice()),
    };
    match (collection_of(name), str::from_utf8(text)) {
        (Some(collection), Ok(text)) => put_text_answer(alloc, versions, collection, text, line),
        _ => line.push_str("no case"),
    }
}
