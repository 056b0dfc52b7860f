//! The JSON object that says a body.

ghost use Rattle.std.specs.Prelude.{◌≡◌, IfOk, OnOk, map};
ghost use Rattle.serde_json.specs.Data.{object};
ghost use Rattle.serde_json.specs.View.{members_view, view};
ghost use Rattle.cad_commands.specs.Writing.{body_members};
ghost use Rattle.cad_commands.specs.inner.Written.{put_chosen};

use crate::values_json::{
    any_object_json, any_share_json, any_words_json, area_json, flag_json, holes_json, shape_json,
    spot_json,
};
use cad_versions::Body;
use serde_json::{Map, Value as Json};
use std::alloc::{AllocError, Global};

/// Adds the member, if its name is one of these.
fn put_chosen(
    members: &mut Map<String, Json>,
    alloc: Global,
    names: &[&str],
    name: &str,
    value: Json,
) -> Result<(), AllocError>
    ensures { OnOk result (members_view members.new.entries
        ≡ put_chosen (map (λ name. name.now) names.now) name.now (view value) (members_view members.old.entries)) }
{
    if names.contains(&name) {
        serde_json::put(members, alloc, name, value)
    } else {
        drop(value);
        Ok(())
    }
}

/// What the body says, as an object with the members of its class, in byte order of their names.
pub(crate) fn body_json(alloc: Global, body: &Body) -> Result<Json, AllocError>
    ensures { IfOk result (λ json. view json ≡ object (body_members body.now)) }
{
    let names = body.class().attributes();
    let parts = body.parts();
    let mut members = Map::new(alloc);
    let area = area_json(parts.area);
    put_chosen(&mut members, alloc, names, "area", area)?;
    let code = any_words_json(alloc, parts.code)?;
    put_chosen(&mut members, alloc, names, "code", code)?;
    let holes = holes_json(alloc, parts.shape)?;
    put_chosen(&mut members, alloc, names, "holes", holes)?;
    let label = any_words_json(alloc, parts.label)?;
    put_chosen(&mut members, alloc, names, "label", label)?;
    let name = any_words_json(alloc, parts.name)?;
    put_chosen(&mut members, alloc, names, "name", name)?;
    let party = any_object_json(parts.party);
    put_chosen(&mut members, alloc, names, "party", party)?;
    let required = flag_json(parts.required);
    put_chosen(&mut members, alloc, names, "required", required)?;
    let shape = shape_json(alloc, parts.shape)?;
    put_chosen(&mut members, alloc, names, "shape", shape)?;
    let share = any_share_json(alloc, parts.share)?;
    put_chosen(&mut members, alloc, names, "share", share)?;
    let spot = spot_json(alloc, parts.spot)?;
    put_chosen(&mut members, alloc, names, "spot", spot)?;
    let unit = any_object_json(parts.unit);
    put_chosen(&mut members, alloc, names, "unit", unit)?;
    Ok(Json::Object(members))
}
