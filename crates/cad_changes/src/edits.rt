//! Features with some new values.

ghost use Rattle.std.specs.Prelude.{◌≡◌, IfOk, map, option_map, get_or};
ghost use Rattle.std.specs.Option.{option_copied};
ghost use Rattle.cad_schema.specs.Attributes.{attribute_of};
ghost use Rattle.cad_feature.specs.Values.{datum_of, null};
ghost use Rattle.cad_changes.specs.inner.EditsOf.{edits_of};
ghost use Rattle.cad_changes.specs.Touching as spec;
ghost use Rattle.cad_changes.specs.Touching.{edited_datum, edited_data, span_to};

use crate::reading::first_of;
use cad_day::{Day, Interval};
use cad_feature::{Feature, Value};
use cad_schema::{Attribute, Collection, Property, schema};
use std::alloc::{AllocError, Global};

/// The last day, and the names that are joined, each only if it is new.
#[derive(Debug, Clone, Copy)]
pub(crate) struct NewValues<'a> {
    /// The version ends on this day.
    pub closing: Option<Day>,
    /// The name of its unit.
    pub unit_name: Option<&'a Value>,
    /// The name of its party.
    pub party_name: Option<&'a Value>,
}

/// The days from the first one to the last.
fn lifespan(alloc: Global, first: Option<Day>, last: Day) -> Result<Value, AllocError>
    ensures { IfOk result (λ value. datum_of value ≡ span_to first last) }
{
    match Interval::new(first, Some(last)) {
        None => Ok(Value::Null),
        Some(days) => {
            let days = Box::new(alloc, days)?;
            Ok(Value::Span(days))
        }
    }
}

/// The new value, or the old one.
fn or_old(alloc: Global, new: Option<&Value>, old: &Value) -> Result<Value, AllocError>
    ensures { IfOk result (λ value. datum_of value ≡ spec.or_old (option_map datum_of (option_copied new.entry)) (datum_of old.now)) }
{
    match new {
        None => old.copy(alloc),
        Some(new) => new.copy(alloc),
    }
}

/// What the attribute says of a version that begins on the first day.
fn edited_value(
    alloc: Global,
    new: NewValues<'_>,
    first: Option<Day>,
    attribute: Attribute,
    old: &Value,
) -> Result<Value, AllocError>
    ensures { IfOk result (λ value. datum_of value ≡ edited_datum (edits_of new.entry) first attribute (datum_of old.now)) }
{
    match attribute {
        Attribute::End => match new.closing {
            None => old.copy(alloc),
            Some(last) => Ok(Value::Day(last)),
        },
        Attribute::Lifespan => match new.closing {
            None => old.copy(alloc),
            Some(last) => lifespan(alloc, first, last),
        },
        Attribute::UnitName => or_old(alloc, new.unit_name, old),
        Attribute::PartyName => or_old(alloc, new.party_name, old),
        _ => old.copy(alloc),
    }
}

/// The edited value of the attribute; its old value is the one at that place, or null if there is no such place.
fn edited_at(
    alloc: Global,
    new: NewValues<'_>,
    first: Option<Day>,
    attribute: Attribute,
    old: &[Value],
    place: usize,
) -> Result<Value, AllocError>
    ensures { IfOk result (λ value. datum_of value ≡ edited_datum (edits_of new.entry) first attribute (get_or (map datum_of old.now) place null)) }
{
    if place < old.len() {
        edited_value(alloc, new, first, attribute, &old[place])
    } else {
        let none = Value::Null;
        edited_value(alloc, new, first, attribute, &none)
    }
}

fn edited_values(
    alloc: Global,
    new: NewValues<'_>,
    first: Option<Day>,
    properties: &[Property],
    old: &[Value],
) -> Result<Vec<Value>, AllocError>
    ensures { IfOk result (λ values. map datum_of values.items ≡ edited_data (edits_of new.entry) first (map attribute_of properties.now) (map datum_of old.now)) }
{
    let mut values = Vec::with_capacity(alloc, properties.len())?;
    for (place, property) in properties.iter().enumerate() {
        let value = edited_at(alloc, new, first, property.attribute, old, place)?;
        values.push(value)?;
    }
    Ok(values)
}

/// The feature of the collection with the new values.
pub(crate) fn edited(
    alloc: Global,
    new: NewValues<'_>,
    collection: Collection,
    feature: &Feature,
) -> Result<Feature, AllocError>
    ensures { IfOk result (λ x. x ≡ spec.edited (edits_of new.entry) collection feature.now) }
{
    let first = first_of(feature);
    let values = edited_values(alloc, new, first, schema(collection), &feature.values)?;
    Ok(Feature::new(feature.object, feature.number, values, feature.period))
}
