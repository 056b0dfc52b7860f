//! The text that says a command.

ghost use Rattle.std.specs.Prelude.{◌≡◌, IfOk, string_bytes};
ghost use Rattle.serde_json.specs.Data.{object as object_of};
ghost use Rattle.serde_json.specs.View.{view};
ghost use Rattle.cad_versions.specs.declared.command.Command.TheVariants.{Retire};
ghost use Rattle.cad_commands.specs.Writing.{beginning_members, command_members, command_text};
ghost use Rattle.cad_commands.specs.inner.Written.{beside_body, with_one};

use crate::bodies_json::body_json;
use crate::values_json::{day_json, object_json};
use cad_day::Day;
use cad_versions::{Body, Command, ObjectId};
use serde_json::{Value as Json, json};
use std::alloc::{AllocError, Global};

/// The object without the body.
fn without_body(
    alloc: Global,
    operation: &str,
    object: ObjectId,
    first: Day,
) -> Result<Json, AllocError>
    ensures { IfOk result (λ json. view json ≡ object_of (beside_body operation.now object first)) }
{
    let first = day_json(alloc, first)?;
    let object = object_json(object);
    json!(in alloc; {"do": operation, "first": first, "object": object})
}

/// The object, with one more member.
fn with_member(alloc: Global, json: Json, name: &str, value: Json) -> Result<Json, AllocError>
    ensures { IfOk result (λ more. view more ≡ with_one (view json) name.now (view value)) }
{
    match json {
        Json::Object(mut members) => {
            serde_json::put(&mut members, alloc, name, value)?;
            Ok(Json::Object(members))
        }
        other => {
            drop(value);
            Ok(other)
        }
    }
}

/// What begins a version, by its operation.
fn beginning_json(
    alloc: Global,
    operation: &str,
    object: ObjectId,
    first: Day,
    body: &Body,
) -> Result<Json, AllocError>
    ensures { IfOk result (λ json. view json ≡ object_of (beginning_members operation.now object first body.now)) }
{
    let outer = without_body(alloc, operation, object, first)?;
    let inner = body_json(alloc, body)?;
    with_member(alloc, outer, body.class().name(), inner)
}

fn retirement_json(alloc: Global, object: ObjectId, last: Day) -> Result<Json, AllocError>
    ensures { IfOk result (λ json. view json ≡ object_of (command_members (Retire object last))) }
{
    let last = day_json(alloc, last)?;
    let object = object_json(object);
    json!(in alloc; {"do": "retire", "last": last, "object": object})
}

/// The object that says the command.
fn command_json(alloc: Global, command: &Command) -> Result<Json, AllocError>
    ensures { IfOk result (λ json. view json ≡ object_of (command_members command.now)) }
{
    match command {
        Command::Enter {
            object,
            first,
            body,
        } => beginning_json(alloc, "enter", *object, *first, body),
        Command::Amend {
            object,
            first,
            body,
        } => beginning_json(alloc, "amend", *object, *first, body),
        Command::Retire { object, last } => retirement_json(alloc, *object, *last),
    }
}

/// The text of the object that says the command, with no space and no line end in it.
pub fn write_command(alloc: Global, command: &Command) -> Result<String, AllocError>
    ensures { IfOk result (λ text. string_bytes text ≡ command_text command.now) }
{
    command_json(alloc, command)?.to_string(alloc)
}
