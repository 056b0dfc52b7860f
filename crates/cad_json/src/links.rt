//! Links.

ghost use Rattle.std.specs.Prelude.{◌≡◌, IfOk, OnOk};
ghost use Rattle.serde_json.specs.View.{view};
ghost use Rattle.cad_json.specs.Links.{link_data};
ghost use Rattle.cad_json.specs.Sent.{Sends};

use serde::Serializer;
use serde_json::{Value as Json, json};
use std::alloc::{AllocError, Global};

/// A link to JSON, by its target and its relation. An error means out of memory.
pub(crate) fn link_json(alloc: Global, href: &str, rel: &str) -> Result<Json, AllocError>
    ensures { IfOk result (λ json. view json ≡ link_data href.now rel.now) }
{
    json!(in alloc; {"href": href, "rel": rel, "type": "application/json"})
}

/// The same, sent. An error is one of the serializer.
pub fn send_link<S: Serializer>(href: &str, rel: &str, out: &mut S) -> Result<(), S::Error>
    ensures { OnOk result (Sends (link_data href.now rel.now) (S.written out.old) (S.written out.new)) }
{
    out.begin_map(Some(3))?;
    out.key("href")?;
    out.str(href)?;
    out.key("rel")?;
    out.str(rel)?;
    out.key("type")?;
    out.str("application/json")?;
    out.end_map()
}
