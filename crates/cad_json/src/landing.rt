//! The landing page.

ghost use Rattle.std.specs.Prelude.{◌≡◌, IfOk, Some, string_bytes};
ghost use Rattle.serde_json.specs.Read.{read};
ghost use Rattle.serde_json.specs.View.{view};
ghost use Rattle.serde_json.specs.Written.{compact_text};
ghost use Rattle.cad_json.specs.Offers.{landing_data};

use crate::links::link_json;
use serde_json::{Value as Json, json};
use std::alloc::{AllocError, Global};

/// The body of `/`. An error means out of memory.
pub fn landing_body(alloc: Global) -> Result<String, AllocError>
    ensures text { IfOk result (λ text. string_bytes text ≡ compact_text landing_data) }
    ensures reads_back { IfOk result (λ text. read (string_bytes text) ≡ Some landing_data) }
{
    landing_json(alloc)?.to_string(alloc)
}

fn landing_json(alloc: Global) -> Result<Json, AllocError>
    ensures { IfOk result (λ json. view json ≡ landing_data) }
{
    let itself = link_json(alloc, "/", "self")?;
    let collections = link_json(alloc, "/collections", "data")?;
    json!(in alloc; {"links": [itself, collections], "title": "Cadastre"})
}
