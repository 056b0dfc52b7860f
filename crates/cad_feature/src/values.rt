//! Values of features, from what versions say.

ghost use Rattle.std.specs.Prelude.{IfOk, Some};
ghost use Rattle.std.specs.Option.{option_copied};
ghost use Rattle.cad_schema.specs.declared.property.PropertyKind.TheVariants as kind;
ghost use Rattle.cad_schema.specs.Attributes.{named};
ghost use Rattle.cad_feature.specs.Flatten.{or_null, as_text, as_whole};
ghost use Rattle.cad_feature.specs.inner.WithNames.{value_with};
ghost use Rattle.cad_day.specs.Intervals.{interval_of};
ghost use Rattle.cad_feature.specs.Values.{Shows, a_day, a_span, a_flag, a_spot, an_area};

use crate::Value;
use cad_day::{Day, Interval};
use cad_schema::Attribute;
use cad_shape::{Point, Region};
use cad_versions::{Version, Words};
use std::alloc::{AllocError, Global};

fn text(words: Option<&Words>) -> Result<Value, AllocError>
    ensures { IfOk result (Shows kind.Text (or_null as_text (option_copied words.entry))) }
{
    match words {
        None => Ok(Value::Null),
        Some(words) => {
            let text = words.text()?;
            Ok(Value::Text(text))
        }
    }
}

fn whole(number: Option<u32>) -> Value
    ensures { Shows kind.Whole (or_null as_whole number) result }
{
    match number {
        None => Value::Null,
        Some(number) => Value::Whole(i64::from(number)),
    }
}

fn flag(flag: Option<bool>) -> Value
    ensures { Shows kind.Flag (or_null a_flag flag) result }
{
    match flag {
        None => Value::Null,
        Some(flag) => Value::Flag(flag),
    }
}

fn day(day: Option<Day>) -> Value
    ensures { Shows kind.Day (or_null a_day day) result }
{
    match day {
        None => Value::Null,
        Some(day) => Value::Day(day),
    }
}

fn lifespan(alloc: Global, first: Day, last: Option<Day>) -> Result<Value, AllocError>
    ensures { IfOk result (Shows kind.Span (or_null a_span (interval_of (Some first) last))) }
{
    match Interval::new(Some(first), last) {
        None => Ok(Value::Null),
        Some(days) => {
            let days = Box::new(alloc, days)?;
            Ok(Value::Span(days))
        }
    }
}

fn spot(alloc: Global, point: Option<Point>) -> Result<Value, AllocError>
    ensures { IfOk result (Shows kind.Spot (or_null a_spot point)) }
{
    match point {
        None => Ok(Value::Null),
        Some(point) => {
            let point = Box::new(alloc, point)?;
            Ok(Value::Spot(point))
        }
    }
}

fn region(region: Option<&Region>) -> Result<Value, AllocError>
    ensures { IfOk result (Shows kind.Area (or_null an_area (option_copied region.entry))) }
{
    match region {
        None => Ok(Value::Null),
        Some(region) => {
            let region = region.copy()?;
            Ok(Value::Area(region))
        }
    }
}

/// What the version says for this attribute, if this is its last day, and its unit and its party have these names.
pub(crate) fn value(
    alloc: Global,
    version: &Version,
    last: Option<Day>,
    unit_name: Option<&Words>,
    party_name: Option<&Words>,
    attribute: Attribute,
) -> Result<Value, AllocError>
    ensures { IfOk result (Shows ((named attribute).1) (value_with version.now last (option_copied unit_name.entry) (option_copied party_name.entry) attribute)) }
{
    let body = &version.body;
    match attribute {
        Attribute::Object => Ok(whole(Some(version.object.number()))),
        Attribute::Number => Ok(whole(Some(version.number))),
        Attribute::Begin => Ok(day(Some(version.first))),
        Attribute::End => Ok(day(last)),
        Attribute::Lifespan => Ok(lifespan(alloc, version.first, last)?),
        Attribute::Name => Ok(text(body.name())?),
        Attribute::Type => Ok(text(body.code())?),
        Attribute::Label => Ok(text(body.label())?),
        Attribute::Area => Ok(whole(body.area())),
        Attribute::Geometry => Ok(region(body.shape())?),
        Attribute::ReferencePoint => Ok(spot(alloc, body.spot())?),
        Attribute::Unit => Ok(whole(body.unit().map(|unit| unit.number()))),
        Attribute::UnitName => Ok(text(unit_name)?),
        Attribute::Party => Ok(whole(body.party().map(|party| party.number()))),
        Attribute::PartyName => Ok(text(party_name)?),
        Attribute::ShareNum => Ok(whole(body.share().map(|share| share.num()))),
        Attribute::ShareDen => Ok(whole(body.share().map(|share| share.den()))),
        Attribute::PartyRequired => Ok(flag(body.required())),
    }
}
