//! The feature that a command adds.

ghost use Rattle.std.specs.Prelude.{◌≡◌, ◌≤◌, ◌∷◌, [], option_map, IfOk, IfSome};
ghost use Rattle.cad_versions.specs.VersionedObject.{IsVersion};
ghost use Rattle.cad_schema.specs.declared.collection.Collection.TheVariants.{Units, Parties};
ghost use Rattle.cad_feature.specs.Features.{datum_at, IsFeatureOf, AreFeaturesOf};
ghost use Rattle.cad_feature.specs.Flatten.{features_in};
ghost use Rattle.cad_feature.specs.Lifespans.{is_up_to};
ghost use Rattle.cad_feature.specs.Values.{datum_of};
ghost use Rattle.cad_changes.specs.inner.EditsOf.{datum_if_any};
ghost use Rattle.cad_changes.specs.Touching as spec;

use crate::edits::{NewValues, edited};
use crate::reading::{first_of, last_of};
use cad_day::Day;
use cad_feature::{Feature, Value, flatten};
use cad_layer::Layer;
use cad_schema::Collection;
use cad_versions::{Body, Command, MOST_NUMBER, ObjectId, Version};
use std::alloc::{AllocError, Global};
use std::slice::from_ref;

/// The place of the name of a unit or a party.
const NAME: usize = 5;

/// The number of the object's next version, if it may have one more.
fn next_number(features: &Layer, object: ObjectId) -> Option<u32>
    ensures number { result ≡ spec.number_after (spec.count_of object features.now.features) }
    ensures in_range { IfSome result (λ number. (1 ≤ number) × (number ≤ 2147483647)) }
{
    let mut number = 1;
    let mut walk = features.versions_of(object);
    while let Some(_) = walk.next() {
        if number == MOST_NUMBER {
            return None;
        }
        number += 1;
    }
    Some(number)
}

fn begins_by(first: Option<Day>, day: Day) -> bool
    ensures { result ≡ spec.begins_by first day }
{
    match first {
        None => false,
        Some(first) => first.number() <= day.number(),
    }
}

fn lasts_to(last: Option<Day>, day: Day) -> bool
    ensures { result ≡ is_up_to last day }
{
    match last {
        None => true,
        Some(last) => day.number() <= last.number(),
    }
}

fn has_day(feature: &Feature, day: Day) -> bool
    ensures { result ≡ spec.has_day day feature.now }
{
    begins_by(first_of(feature), day) && lasts_to(last_of(feature), day)
}

/// The name of the unit or the party.
fn name_in(alloc: Global, feature: &Feature) -> Result<Value, AllocError>
    ensures { IfOk result (λ name. datum_of name ≡ datum_at feature.now 5) }
{
    match feature.value(NAME) {
        None => Ok(Value::Null),
        Some(name) => name.copy(alloc),
    }
}

/// The name of the object on the day, among units or parties.
fn name_among(
    alloc: Global,
    features: &Layer,
    day: Day,
    object: ObjectId,
) -> Result<Value, AllocError>
    ensures { IfOk result (λ name. datum_of name ≡ spec.name_among features.now.features day object) }
{
    let mut walk = features.versions_of(object);
    while let Some(feature) = walk.next() {
        if has_day(feature, day) {
            return name_in(alloc, feature);
        }
    }
    Ok(Value::Null)
}

fn name_if_any(
    alloc: Global,
    features: &Layer,
    day: Day,
    object: Option<ObjectId>,
) -> Result<Option<Value>, AllocError>
    ensures { IfOk result (λ name. datum_if_any name ≡ option_map (spec.name_among features.now.features day) object) }
{
    match object {
        None => Ok(None),
        Some(object) => {
            let name = name_among(alloc, features, day, object)?;
            Ok(Some(name))
        }
    }
}

/// The object's next version, if it may have one more.
fn begun(
    features: &Layer,
    object: ObjectId,
    first: Day,
    body: &Body,
) -> Result<Option<Version>, AllocError>
    ensures version { IfOk result (λ version. version ≡ spec.begun_after (spec.count_of object features.now.features) object first body.now) }
    ensures sound { IfOk result (λ version. IfSome version IsVersion) }
{
    let Some(number) = next_number(features, object) else {
        return Ok(None);
    };
    let body = body.copy()?;
    Ok(Some(Version {
        object,
        number,
        first,
        last: None,
        body,
    }))
}

/// The version that the command adds, by the features of its object's collection.
fn version_begun(command: &Command, features: &Layer) -> Result<Option<Version>, AllocError>
    ensures version { IfOk result (λ version. version ≡ spec.version_begun features.now.features command.now) }
    ensures sound { IfOk result (λ version. IfSome version IsVersion) }
{
    match command {
        Command::Enter {
            object,
            first,
            body,
        } => begun(features, *object, *first, body),
        Command::Amend {
            object,
            first,
            body,
        } => begun(features, *object, *first, body),
        Command::Retire { .. } => Ok(None),
    }
}

/// The feature of the version, if it is of the collection. No names are joined with it, since it is built from this version alone.
fn alone(
    alloc: Global,
    version: &Version,
    collection: Collection,
) -> Result<Vec<Feature>, AllocError>
    requires { IsVersion version.now }
    ensures features { IfOk result (λ xs. xs.items ≡ features_in (version.now ∷ []) collection) }
    ensures listed { IfOk result (λ xs. AreFeaturesOf collection xs.items) }
{
    let features = flatten(alloc, from_ref(version), collection)?;
    Ok(features)
}

/// The feature that was built from the version alone, with the names of the objects that it names.
fn joined(
    alloc: Global,
    version: &Version,
    feature: &Feature,
    units: &Layer,
    parties: &Layer,
    collection: Collection,
) -> Result<Feature, AllocError>
    ensures { IfOk result (λ x. x ≡ spec.edited (spec.names_joined units.now.features parties.now.features version.now) collection feature.now) }
{
    let unit_name = name_if_any(alloc, units, version.first, version.body.unit())?;
    let party_name = name_if_any(alloc, parties, version.first, version.body.party())?;
    let new = NewValues {
        closing: None,
        unit_name: unit_name.as_ref(),
        party_name: party_name.as_ref(),
    };
    let feature = edited(alloc, new, collection, feature)?;
    Ok(feature)
}

/// The features of the layer are features of its collection.
pub(crate) fn are_listed(features: &Layer)
    ensures { AreFeaturesOf features.now.collection features.now.features }
{
    let _listed = features.collection();
}

/// The version's feature, if it is of the collection.
fn feature_of(
    alloc: Global,
    version: &Version,
    units: &Layer,
    parties: &Layer,
    collection: Collection,
) -> Result<Option<Feature>, AllocError>
    requires sound { IsVersion version.now }
    requires units { units.now.collection ≡ Units }
    requires parties { parties.now.collection ≡ Parties }
    ensures feature { IfOk result (λ x. x ≡ spec.item_of units.now.features parties.now.features collection version.now) }
    ensures fits { IfOk result (λ x. IfSome x (IsFeatureOf collection)) }
{
    are_listed(units);
    are_listed(parties);
    let features = alone(alloc, version, collection)?;
    let Some((feature, _)) = features.split_first() else {
        return Ok(None);
    };
    let feature = joined(alloc, version, feature, units, parties, collection)?;
    Ok(Some(feature))
}

/// The feature that the command adds, if it adds one to the collection.
pub(crate) fn feature_added(
    alloc: Global,
    command: &Command,
    features: &Layer,
    units: &Layer,
    parties: &Layer,
) -> Result<Option<Feature>, AllocError>
    requires units { units.now.collection ≡ Units }
    requires parties { parties.now.collection ≡ Parties }
    ensures feature { IfOk result (λ x. x ≡ spec.item_added features.now.features units.now.features parties.now.features command.now features.now.collection) }
    ensures fits { IfOk result (λ x. IfSome x (IsFeatureOf features.now.collection)) }
{
    let Some(version) = version_begun(command, features)? else {
        return Ok(None);
    };
    let feature = feature_of(alloc, &version, units, parties, features.collection())?;
    Ok(feature)
}
