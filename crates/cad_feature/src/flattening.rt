//! From versions to features.

ghost use Rattle.std.specs.Prelude.{◌≡◌, IfOk, drop};
ghost use Rattle.std.specs.List.{All, position_or_len};
ghost use Rattle.std.specs.Option.{option_copied};
ghost use Rattle.cad_versions.specs.Listing.{IsListing};
ghost use Rattle.cad_feature.specs.Features.{IsNumbered, IsFeatureOf, AreFeaturesOf};
ghost use Rattle.cad_feature.specs.inner.Joined.{is_joined as is_joined_of, joins_names as joins_names_of};
ghost use Rattle.cad_feature.specs.inner.WithNames.{feature_with};
ghost use Rattle.cad_feature.specs.Flatten.{class_for, is_in as is_of_class, feature_in, features_in};

use crate::joining::joined_name;
use crate::objects::Objects;
use crate::values::value;
use crate::{Feature, Period};
use cad_day::Day;
use cad_schema::{Attribute, Collection, schema};
use cad_versions::{Class, Version, Words};
use std::alloc::{AllocError, Global};

/// The class of the collection's objects.
fn class(collection: Collection) -> Class
    ensures { result ≡ class_for collection }
{
    match collection {
        Collection::Parcels => Class::Parcel,
        Collection::Rights => Class::Right,
        Collection::Restrictions => Class::Restriction,
        Collection::Units => Class::Unit,
        Collection::Parties => Class::Party,
        Collection::Responsibilities => Class::Responsibility,
    }
}

/// Whether the version is of the collection's class.
pub fn is_in(version: &Version, collection: Collection) -> bool
    ensures { result ≡ is_of_class collection version.now }
{
    version.body.class() == class(collection)
}

/// The version as a feature of the collection, if this is its last day, and its unit and its party have these names.
pub(crate) fn feature(
    alloc: Global,
    version: &Version,
    last: Option<Day>,
    unit_name: Option<&Words>,
    party_name: Option<&Words>,
    collection: Collection,
) -> Result<Feature, AllocError>
    ensures feature { IfOk result (λ x. x ≡ feature_with version.now last (option_copied unit_name.entry) (option_copied party_name.entry) collection) }
    ensures numbered { IfOk result IsNumbered }
    ensures fits { IfOk result (IsFeatureOf collection) }
{
    let properties = schema(collection);
    let mut values = Vec::with_capacity(alloc, properties.len())?;
    for property in properties {
        let attribute = property.attribute;
        let value = value(alloc, version, last, unit_name, party_name, attribute)?;
        values.push(value)?;
    }
    Ok(Feature::new(version.object, version.number, values, Period::always()))
}

/// The version as a feature of the collection, among these versions.
fn feature_among(
    alloc: Global,
    objects: &Objects<'_>,
    version: &Version,
    collection: Collection,
) -> Result<Feature, AllocError>
    ensures feature { IfOk result (λ x. x ≡ feature_in objects.now.versions.now collection version.now) }
    ensures numbered { IfOk result IsNumbered }
    ensures fits { IfOk result (IsFeatureOf collection) }
{
    let unit_name = joined_name(objects, version.first, version.body.unit());
    let party_name = joined_name(objects, version.first, version.body.party());
    let last = version.last;
    let feature = feature(alloc, version, last, unit_name, party_name, collection)?;
    Ok(feature)
}

/// The versions from the first of the collection's class on.
fn from_first(versions: &[Version], collection: Collection) -> &[Version]
    ensures { result.now ≡ drop (position_or_len (is_of_class collection) versions.now) versions.now }
{
    match versions
        .iter()
        .position(|version| is_in(version, collection))
    {
        Some(first) => &versions[first..],
        None => &[],
    }
}

/// How many of the versions are of the collection's class.
fn count(versions: &[Version], collection: Collection) -> usize {
    versions
        .iter()
        .filter(|version| is_in(version, collection))
        .count()
}

/// Whether the attribute is the name of another object.
fn is_joined(attribute: Attribute) -> bool
    ensures { result ≡ is_joined_of attribute }
{
    matches!(attribute, Attribute::UnitName | Attribute::PartyName)
}

/// Whether features of the collection have names of other objects.
fn joins_names(collection: Collection) -> bool
    ensures { result ≡ joins_names_of collection }
{
    let properties = schema(collection);
    properties
        .iter()
        .any(|property| is_joined(property.attribute))
}

/// All versions, for the features of some of them: with starts, unless no name is to be found.
fn objects<'a>(
    alloc: Global,
    versions: &'a [Version],
    some: &[Version],
    collection: Collection,
) -> Result<Objects<'a>, AllocError>
    requires { IsListing versions.now }
    ensures { IfOk result (λ objects. objects.versions.now ≡ versions.now) }
{
    if !some.is_empty() && joins_names(collection) {
        Objects::marked(alloc, versions)
    } else {
        Ok(Objects::unmarked(alloc, versions))
    }
}

/// One feature for each version of the collection's class, by object and number.
///
/// A joined name is the one that the named object has on the version's first day.
pub fn flatten(
    alloc: Global,
    versions: &[Version],
    collection: Collection,
) -> Result<Vec<Feature>, AllocError>
    requires { IsListing versions.now }
    ensures features { IfOk result (λ features. features.items ≡ features_in versions.now collection) }
    ensures numbered { IfOk result (λ features. All IsNumbered features.items) }
    ensures listed { IfOk result (λ features. AreFeaturesOf collection features.items) }
{
    let rest = from_first(versions, collection);
    let objects = objects(alloc, versions, rest, collection)?;
    let mut features = Vec::with_capacity(alloc, count(rest, collection))?;
    for version in rest {
        if is_in(version, collection) {
            let feature = feature_among(alloc, &objects, version, collection)?;
            features.push(feature)?;
        }
    }
    Ok(features)
}
