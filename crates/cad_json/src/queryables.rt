//! The properties of a collection that filters may name.

ghost use Rattle.std.specs.Prelude.{◌≡◌, IfOk, Some, map, string_bytes};
ghost use Rattle.serde_json.specs.Read.{read};
ghost use Rattle.serde_json.specs.View.{view};
ghost use Rattle.serde_json.specs.Written.{compact_text};
ghost use Rattle.cad_schema.specs.Schema.{property_of};
ghost use Rattle.cad_json.specs.Queryables.{format_data, kind_data, properties_schema, queryables_data, type_data};

use crate::paths::queryables_path;
use cad_schema::{Collection, Property, PropertyKind, schema};
use serde_json::{Map, Value as Json, json};
use std::alloc::{AllocError, Global};

/// The body of a collection's queryables. An error means out of memory.
pub fn queryables_body(alloc: Global, collection: Collection) -> Result<String, AllocError>
    ensures text { IfOk result (λ text. string_bytes text ≡ compact_text (queryables_data collection)) }
    ensures reads_back { IfOk result (λ text. read (string_bytes text) ≡ Some (queryables_data collection)) }
{
    queryables_json(alloc, collection)?.to_string(alloc)
}

fn queryables_json(alloc: Global, collection: Collection) -> Result<Json, AllocError>
    ensures { IfOk result (λ json. view json ≡ queryables_data collection) }
{
    let path = queryables_path(alloc, collection)?;
    let properties = properties_json(alloc, schema(collection))?;
    json!(in alloc; {"$id": path, "$schema": "https://json-schema.org/draft/2020-12/schema",
        "additionalProperties": false, "properties": properties, "type": "object"})
}

fn properties_json(alloc: Global, schema: &[Property]) -> Result<Json, AllocError>
    ensures { IfOk result (λ json. view json ≡ properties_schema (map property_of schema.now)) }
{
    let mut members = Map::new(alloc);
    for property in schema {
        let kind = kind_json(alloc, property.kind)?;
        serde_json::put(&mut members, alloc, property.name, kind)?;
    }
    Ok(Json::Object(members))
}

fn kind_json(alloc: Global, kind: PropertyKind) -> Result<Json, AllocError>
    ensures { IfOk result (λ json. view json ≡ kind_data kind) }
{
    match kind {
        PropertyKind::Text => type_json(alloc, "string"),
        PropertyKind::Whole => type_json(alloc, "integer"),
        PropertyKind::Flag => type_json(alloc, "boolean"),
        PropertyKind::Day => json!(in alloc; {"format": "date", "type": "string"}),
        PropertyKind::Span => format_json(alloc, "interval"),
        PropertyKind::Spot => format_json(alloc, "geometry-point"),
        PropertyKind::Area => format_json(alloc, "geometry-polygon"),
    }
}

fn type_json(alloc: Global, name: &str) -> Result<Json, AllocError>
    ensures { IfOk result (λ json. view json ≡ type_data name.now) }
{
    json!(in alloc; {"type": name})
}

fn format_json(alloc: Global, name: &str) -> Result<Json, AllocError>
    ensures { IfOk result (λ json. view json ≡ format_data name.now) }
{
    json!(in alloc; {"format": name})
}
