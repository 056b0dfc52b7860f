//! The collections.

ghost use Rattle.std.specs.Prelude.{◌≡◌, IfOk, Some, map, string_bytes};
ghost use Rattle.serde_json.specs.Data.{array};
ghost use Rattle.serde_json.specs.Read.{read};
ghost use Rattle.serde_json.specs.View.{view, items_of};
ghost use Rattle.serde_json.specs.Written.{compact_text};
ghost use Rattle.cad_json.specs.Offers.{collection_data, collection_links, collections_data};

use crate::links::link_json;
use crate::paths::{items_path, queryables_path};
use cad_schema::Collection;
use serde_json::{Value as Json, json};
use std::alloc::{AllocError, Global};

/// The body of `/collections`. An error means out of memory.
pub fn collections_body(alloc: Global) -> Result<String, AllocError>
    ensures text { IfOk result (λ text. string_bytes text ≡ compact_text collections_data) }
    ensures reads_back { IfOk result (λ text. read (string_bytes text) ≡ Some collections_data) }
{
    collections_json(alloc)?.to_string(alloc)
}

/// The body of one collection's own path. An error means out of memory.
pub fn collection_body(alloc: Global, collection: Collection) -> Result<String, AllocError>
    ensures text { IfOk result (λ text. string_bytes text ≡ compact_text (collection_data collection)) }
    ensures reads_back { IfOk result (λ text. read (string_bytes text) ≡ Some (collection_data collection)) }
{
    collection_json(alloc, collection)?.to_string(alloc)
}

fn collections_json(alloc: Global) -> Result<Json, AllocError>
    ensures { IfOk result (λ json. view json ≡ collections_data) }
{
    let collections = list_json(alloc, &Collection::ALL)?;
    let itself = link_json(alloc, "/collections", "self")?;
    json!(in alloc; {"collections": collections, "links": [itself]})
}

fn list_json(alloc: Global, collections: &[Collection]) -> Result<Json, AllocError>
    ensures { IfOk result (λ json. view json ≡ array (items_of (map collection_data collections.now))) }
{
    let mut list = Vec::new(alloc);
    for collection in collections {
        list.push(collection_json(alloc, *collection)?)?;
    }
    Ok(Json::Array(list))
}

fn collection_json(alloc: Global, collection: Collection) -> Result<Json, AllocError>
    ensures { IfOk result (λ json. view json ≡ collection_data collection) }
{
    let links = links_json(alloc, collection)?;
    json!(in alloc; {"id": collection.name(), "itemType": "feature", "links": links, "title": collection.name()})
}

fn links_json(alloc: Global, collection: Collection) -> Result<Json, AllocError>
    ensures { IfOk result (λ json. view json ≡ collection_links collection) }
{
    let items = items_path(alloc, collection)?;
    let items = link_json(alloc, items.as_str(), "items")?;
    let queryables = queryables_path(alloc, collection)?;
    let queryables = link_json(alloc, queryables.as_str(), "queryables")?;
    json!(in alloc; [items, queryables])
}
