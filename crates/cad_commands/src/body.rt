//! Bodies of versions, as JSON objects.

ghost use Rattle.serde_json.specs.View.{members_view};
ghost use Rattle.cad_commands.specs.Bodies.{SaysBody, SaysParts};
ghost use Rattle.cad_commands.specs.Commands.{SaysOneBody};
ghost use Rattle.cad_commands.specs.Reading.{IsRead};

use crate::command_error::CommandError;
use crate::members::Members;
use crate::outline::shape;
use cad_versions::{Body, BodyParts, Class};
use std::alloc::Global;

/// The body of the one class that is named next to the object and the first day.
pub(crate) fn body(alloc: Global, members: Members) -> Result<Body, CommandError>
    ensures { IsRead (SaysOneBody (members_view members.map.entries)) result }
{
    let (name, value) = members.one_other(&["do", "object", "first"])?;
    let class = Class::named(name.as_str()).ok_or(CommandError::NotACommand)?;
    let members = Members::of(value)?;
    body_of(alloc, class, members)
}

/// What the members say, part by part.
fn parts(alloc: Global, members: &Members) -> Result<BodyParts, CommandError>
    ensures { IsRead (SaysParts (members_view members.now.map.entries)) result }
{
    let area = members.optional(alloc, "area")?;
    let unit = members.optional(alloc, "unit")?;
    let party = members.optional(alloc, "party")?;
    let share = members.optional(alloc, "share")?;
    let required = members.optional(alloc, "required")?;
    let spot = members.optional(alloc, "spot")?;
    let name = members.optional(alloc, "name")?;
    let code = members.optional(alloc, "code")?;
    let label = members.optional(alloc, "label")?;
    let shape = shape(alloc, members)?;
    Ok(BodyParts {
        name,
        code,
        label,
        area,
        unit,
        party,
        share,
        required,
        spot,
        shape,
    })
}

/// The body of the class that the members say. They must be members of this class only.
#[tactic(auto, unfolding(crate::specs::Bodies::SaysBody))]
fn body_of(alloc: Global, class: Class, members: Members) -> Result<Body, CommandError>
    ensures { IsRead (SaysBody (members_view members.map.entries) class) result }
{
    let parts = parts(alloc, &members)?;
    members.only(class.attributes())?;
    match Body::from_parts(class, parts) {
        Some(body) => Ok(body),
        None => Err(CommandError::NotACommand),
    }
}
