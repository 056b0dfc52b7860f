//! Bodies without features, by their paths.

use cad_json::{
    collection_body, collections_body, filter_fault_body, landing_body, queryables_body,
};
use cad_schema::Collection;
use std::alloc::{AllocError, Global};

/// The body at a path.
pub fn body(alloc: Global, path: &str) -> Result<String, AllocError> {
    match path {
        "/" => landing_body(alloc),
        "/collections" => collections_body(alloc),
        _ => match path.strip_prefix("/collections/") {
            Some(rest) => body_of_collection(alloc, rest),
            None => String::from_str(alloc, "no body"),
        },
    }
}

fn body_of_collection(alloc: Global, rest: &str) -> Result<String, AllocError> {
    let (name, part) = rest.split_once('/').unwrap_or((rest, ""));
    match Collection::read(name) {
        Some(collection) if part == "queryables" => queryables_body(alloc, collection),
        Some(collection) if part.is_empty() => collection_body(alloc, collection),
        _ => String::from_str(alloc, "no body"),
    }
}

/// The body of the fault of a filter.
pub fn fault(alloc: Global, cause: &str, place: &str) -> Result<String, AllocError> {
    match place.parse() {
        Ok(place) => filter_fault_body(alloc, cause, place),
        Err(_) => String::from_str(alloc, "no place"),
    }
}
