//! What the ten commands say.

ghost use Rattle.std.specs.Prelude.{◌≡◌, Some, None, is_some, option_map, IsTrue, IfOk};
ghost use Rattle.cad_day.specs.DayTexts.{day_named};
ghost use Rattle.cad_versions.specs.Objects.{IsObjectNumber};
ghost use Rattle.cad_versions.specs.Texts.{AreWords};
ghost use Rattle.cad_sample.specs.Instructions.{a_parcel, to_enter, to_amend, attributes_of, instruction_of, outlines_of};
ghost use Rattle.cad_sample.specs.Sample.{AreSample, ana, first_parcel as first, second_parcel as second, third_parcel as third, fourth_parcel as fourth, ownership, no_building};

use crate::values::{day, object_id, region, words};
use cad_shape::Region;
use cad_versions::{Body, Command, Share};
use std::alloc::{AllocError, Global};

/// The ten commands of the sample register, in their order.
pub fn sample(alloc: Global) -> Result<Vec<Command>, AllocError>
    ensures { IfOk result (λ commands. AreSample commands.items) }
{
    let mut commands = Vec::new(alloc);
    let mill = Some(words(alloc, "Mill")?);
    commands.push(enter(10, "2000-01-01", Body::Unit { name: mill }))?;
    commands.push(enter(11, "2000-01-01", Body::Unit { name: None }))?;
    commands.push(enter(20, "2000-01-01", party(alloc)?))?;
    commands.push(enter(1, "2001-01-01", first_parcel(alloc, 400)?))?;
    commands.push(amend(1, "2010-01-01", first_parcel(alloc, 380)?))?;
    commands.push(enter(2, "2005-06-01", second_parcel(alloc)?))?;
    commands.push(enter(3, "2003-01-01", third_parcel(alloc)?))?;
    commands.push(enter(4, "2003-01-01", fourth_parcel(alloc)?))?;
    commands.push(enter(30, "2005-01-01", right(alloc)?))?;
    commands.push(enter(31, "2006-01-01", restriction(alloc)?))?;
    Ok(commands)
}

fn party(alloc: Global) -> Result<Body, AllocError>
    ensures { IfOk result (λ body. attributes_of body ≡ ana) }
{
    Ok(Body::Party {
        name: Some(words(alloc, "Ana Straße")?),
        code: words(alloc, "naturalPerson")?,
    })
}

fn first_parcel(alloc: Global, area: u32) -> Result<Body, AllocError>
    ensures { IfOk result (λ body. attributes_of body ≡ first area) }
{
    let corners = [(0, 0), (20_000, 0), (20_000, 20_000), (0, 20_000)];
    let shape = Some(region(alloc, &corners)?);
    parcel(alloc, 10, "A-1", Some(area), shape)
}

fn second_parcel(alloc: Global) -> Result<Body, AllocError>
    ensures { IfOk result (λ body. attributes_of body ≡ second) }
{
    let corners = [(20_000, 0), (40_000, 0), (40_000, 20_000), (20_000, 20_000)];
    let shape = Some(region(alloc, &corners)?);
    parcel(alloc, 10, "A-2", None, shape)
}

fn third_parcel(alloc: Global) -> Result<Body, AllocError>
    ensures { IfOk result (λ body. attributes_of body ≡ third) }
{
    let corners = [(0, 30_000), (30_000, 30_000), (0, 60_000)];
    let shape = Some(region(alloc, &corners)?);
    parcel(alloc, 11, "b-7", Some(900), shape)
}

fn fourth_parcel(alloc: Global) -> Result<Body, AllocError>
    ensures { IfOk result (λ body. attributes_of body ≡ fourth) }
{
    parcel(alloc, 11, "C%1", Some(0), None)
}

fn right(alloc: Global) -> Result<Body, AllocError>
    ensures { IfOk result (λ body. attributes_of body ≡ ownership) }
{
    Ok(Body::Right {
        unit: object_id(10),
        party: Some(object_id(20)),
        code: words(alloc, "ownership")?,
        share: Share::new(1, 2),
    })
}

fn restriction(alloc: Global) -> Result<Body, AllocError>
    ensures { IfOk result (λ body. attributes_of body ≡ no_building) }
{
    Ok(Body::Restriction {
        unit: object_id(11),
        party: None,
        code: words(alloc, "noBuilding")?,
        share: None,
        required: Some(false),
    })
}

fn enter(object: u32, first: &str, body: Body) -> Command
    requires object { IsObjectNumber object }
    requires first { IsTrue (is_some (day_named first.now)) }
    ensures { option_map (λ day. to_enter object day (attributes_of body)) (day_named first.now) ≡ Some (instruction_of result) }
{
    Command::Enter {
        object: object_id(object),
        first: day(first),
        body,
    }
}

fn amend(object: u32, first: &str, body: Body) -> Command
    requires object { IsObjectNumber object }
    requires first { IsTrue (is_some (day_named first.now)) }
    ensures { option_map (λ day. to_amend object day (attributes_of body)) (day_named first.now) ≡ Some (instruction_of result) }
{
    Command::Amend {
        object: object_id(object),
        first: day(first),
        body,
    }
}

fn parcel(
    alloc: Global,
    unit: u32,
    label: &str,
    area: Option<u32>,
    shape: Option<Region>,
) -> Result<Body, AllocError>
    requires unit { IsObjectNumber unit }
    requires label { AreWords label.now }
    ensures { IfOk result (λ body. attributes_of body ≡ a_parcel unit label.now area (option_map outlines_of shape) None) }
{
    Ok(Body::Parcel {
        unit: object_id(unit),
        label: words(alloc, label)?,
        area,
        shape,
        spot: None,
    })
}
