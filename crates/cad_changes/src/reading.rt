//! What a feature says.

ghost use Rattle.std.specs.Prelude.{◌≡◌};
ghost use Rattle.cad_feature.specs.Features.{datum_at};
ghost use Rattle.cad_changes.specs.Touching as spec;
ghost use Rattle.cad_changes.specs.Touching.{day_in, whole_in};

use cad_day::Day;
use cad_feature::Feature;
use cad_schema::{Collection, find_property};

/// The place of the first day in each feature.
const BEGIN: usize = 2;

/// The place of the last day in each feature.
const END: usize = 3;

fn day_at(feature: &Feature, place: usize) -> Option<Day>
    ensures { result ≡ day_in (datum_at feature.now place) }
{
    feature.value(place)?.as_day()
}

fn whole_at(feature: &Feature, place: usize) -> Option<i64>
    ensures { result ≡ whole_in (datum_at feature.now place) }
{
    feature.value(place)?.as_whole()
}

/// The first day of the feature's version.
pub(crate) fn first_of(feature: &Feature) -> Option<Day>
    ensures { result ≡ spec.first_of feature.now }
{
    day_at(feature, BEGIN)
}

/// The last day of the feature's version, if it has one.
pub(crate) fn last_of(feature: &Feature) -> Option<Day>
    ensures { result ≡ spec.last_of feature.now }
{
    day_at(feature, END)
}

/// The place of the property with this name in a feature of the collection, if it has such a property.
fn place_named(collection: Collection, name: &str) -> Option<usize>
    ensures { result ≡ spec.place_named collection name.now }
{
    let (place, _) = find_property(collection, name)?;
    Some(place)
}

/// The place of the number of its unit.
pub(crate) fn unit_place(collection: Collection) -> Option<usize>
    ensures { result ≡ spec.unit_place collection }
{
    place_named(collection, "unit")
}

/// The place of the number of its party.
pub(crate) fn party_place(collection: Collection) -> Option<usize>
    ensures { result ≡ spec.party_place collection }
{
    place_named(collection, "party")
}

/// The number of the unit that the feature of the collection names, if it names one.
pub(crate) fn unit_of(feature: &Feature, collection: Collection) -> Option<i64>
    ensures { result ≡ spec.number_at feature.now (spec.unit_place collection) }
{
    whole_at(feature, unit_place(collection)?)
}

/// The number of the party that it names, if it names one.
pub(crate) fn party_of(feature: &Feature, collection: Collection) -> Option<i64>
    ensures { result ≡ spec.number_at feature.now (spec.party_place collection) }
{
    whole_at(feature, party_place(collection)?)
}
