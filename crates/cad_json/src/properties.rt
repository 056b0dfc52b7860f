//! The properties of a feature and its geometry.

ghost use Rattle.std.specs.Prelude.{◌≡◌, OnOk, map, option_map, slice_get};
ghost use Rattle.serde_json.specs.Data.{object};
ghost use Rattle.serde_json.specs.Events.{members_len};
ghost use Rattle.cad_schema.specs.Attributes.{listed_of};
ghost use Rattle.cad_schema.specs.Schema.{schema_of};
ghost use Rattle.cad_feature.specs.Values.{datum_of};
ghost use Rattle.cad_json.specs.Sent.{Sends};
ghost use Rattle.cad_json.specs.Values.{geometry_data, properties_data};
ghost use Rattle.cad_json.specs.inner.Members.{members_at};

use crate::values::send_value;
use cad_feature::{Feature, Value};
use cad_schema::{Collection, ListedProperty, listed_properties};
use serde::Serializer;

/// The place of a parcel's geometry among its values.
const GEOMETRY: usize = 7;

/// The geometry, or null if there is no geometry.
pub(crate) fn send_geometry<S: Serializer>(
    collection: Collection,
    feature: &Feature,
    out: &mut S,
) -> Result<(), S::Error>
    ensures { OnOk result (Sends (geometry_data (schema_of collection) feature.now.values) (S.written out.old) (S.written out.new)) }
{
    match (collection, value_at(feature, GEOMETRY)) {
        (Collection::Parcels, Some(value)) => send_value(value, out),
        _ => out.unit(),
    }
}

/// The values under the names of the schema, except the geometry and the lifespan.
pub(crate) fn send_properties<S: Serializer>(
    collection: Collection,
    feature: &Feature,
    out: &mut S,
) -> Result<(), S::Error>
    ensures { OnOk result (Sends (properties_data (schema_of collection) feature.now.values) (S.written out.old) (S.written out.new)) }
{
    send_members(listed_properties(collection), feature, out)
}

fn send_members<S: Serializer>(
    listed: &[ListedProperty],
    feature: &Feature,
    out: &mut S,
) -> Result<(), S::Error>
    ensures { OnOk result (Sends (object (members_at feature.now (map listed_of listed.now))) (S.written out.old) (S.written out.new)) }
{
    out.begin_map(Some(members_count(listed, feature)))?;
    for property in listed {
        if let Some(value) = value_at(feature, property.place) {
            out.key(property.name)?;
            send_value(value, out)?;
        }
    }
    out.end_map()
}

/// How many of the members have a value.
fn members_count(listed: &[ListedProperty], feature: &Feature) -> usize
    ensures { result ≡ members_len (members_at feature.now (map listed_of listed.now)) }
{
    let mut count = 0;
    for property in listed {
        if value_at(feature, property.place).is_some() {
            count += 1;
        }
    }
    count
}

/// The value at that place, if there is one.
fn value_at(feature: &Feature, place: usize) -> Option<&Value>
    ensures { option_map (λ value. datum_of value.now) result ≡ slice_get feature.now.values place }
{
    feature.values.get(place)
}
