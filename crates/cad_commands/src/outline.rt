//! The shape of a parcel, as the corners of its outline and of its holes.

ghost use Rattle.std.specs.Prelude.{◌≡◌, ◌∷◌};
ghost use Rattle.cad_shape.specs.RegionRings.{rings_of};
ghost use Rattle.serde_json.specs.View.{items_view, members_view};
ghost use Rattle.cad_commands.specs.Bodies.{SaysShape};
ghost use Rattle.cad_commands.specs.Reading.{IsRead, IsReadAs};
ghost use Rattle.cad_commands.specs.Values.{ArePointsOf, AreRingsOf, holes_listed};

use crate::command_error::CommandError;
use crate::members::Members;
use crate::values::FromValue;
use cad_shape::{Point, Region, Ring};
use serde_json::Value;
use std::alloc::Global;
use std::marker::Model;
use std::rc::Rc;

impl FromValue for Ring {
    ghost use Rattle.cad_commands.specs.Values.{IsRingOf};

    ghost said_by = { IsRingOf };

    /// A ring, as the list of its corners, the first not repeated.
    fn from_value(alloc: Global, value: &Value) -> Result<Ring, CommandError> {
        let list = value.as_array().ok_or(CommandError::NotACommand)?;
        let corners = points(alloc, list)?;
        match Ring::new(corners) {
            Ok(ring) => Ok(ring),
            Err(_) => Err(CommandError::NotACommand),
        }
    }
}

fn points(alloc: Global, list: &[Value]) -> Result<Vec<Point>, CommandError>
    ensures { IsReadAs (λ points. points.items) (ArePointsOf (items_view list.now)) result }
{
    let mut points = Vec::new(alloc);
    for value in list {
        points.push(Point::from_value(alloc, value)?)?;
    }
    Ok(points)
}

fn rings(alloc: Global, list: &[Value]) -> Result<Vec<Ring>, CommandError>
    ensures { IsReadAs (λ rings. rings.items) (AreRingsOf (items_view list.now)) result }
{
    let mut rings = Vec::new(alloc);
    for value in list {
        rings.push(Ring::from_value(alloc, value)?)?;
    }
    Ok(rings)
}

/// The holes of a shape.
#[derive(Drop)]
struct Holes {
    rings: Vec<Ring>,
}

impl Model for Holes {
    ghost use Rattle.std.specs.Prelude.{List};
    ghost use Rattle.cad_shape.specs.declared.ring.Ring.{Ring};

    ghost Value = { List Ring };

    ghost view = { λ holes. holes.rings.items };
}

impl FromValue for Holes {
    ghost use Rattle.cad_commands.specs.Values.{AreHolesOf};

    ghost said_by = { AreHolesOf };

    /// Holes, as the list of their rings.
    fn from_value(alloc: Global, value: &Value) -> Result<Holes, CommandError> {
        let list = value.as_array().ok_or(CommandError::NotACommand)?;
        let rings = rings(alloc, list)?;
        Ok(Holes { rings })
    }
}

/// The rings of the holes, if there are any.
fn listed(alloc: Global, holes: Option<Holes>) -> Vec<Ring>
    ensures { result.items ≡ holes_listed holes }
{
    match holes {
        Some(holes) => holes.rings,
        None => Vec::new(alloc),
    }
}

/// The region inside an outline, and outside holes if there are any.
fn region(alloc: Global, outline: Ring, holes: Option<Holes>) -> Result<Region, CommandError>
    ensures { IsRead (λ region. rings_of region ≡ outline ∷ holes_listed holes) result }
{
    let mut rings = listed(alloc, holes);
    rings.insert(0, outline)?;
    let rings = Rc::new(alloc, rings)?;
    match Region::new(rings) {
        Ok(region) => Ok(region),
        Err(_) => Err(CommandError::NotACommand),
    }
}

/// What the members `shape` and `holes` say together.
pub(crate) fn shape(alloc: Global, members: &Members) -> Result<Option<Region>, CommandError>
    ensures { IsRead (SaysShape (members_view members.now.map.entries)) result }
{
    let outline: Option<Ring> = members.optional(alloc, "shape")?;
    let holes: Option<Holes> = members.optional(alloc, "holes")?;
    match outline {
        Some(outline) => {
            let region = region(alloc, outline, holes)?;
            Ok(Some(region))
        }
        None if holes.is_none() => Ok(None),
        None => Err(CommandError::NotACommand),
    }
}
