//! The features as a command leaves them.

ghost use Rattle.std.specs.Prelude.{◌≡◌, ◌&&◌, is_none, ◌∷◌, [], ◌++◌, filter, Some, None, IfOk, OnOk, if◌then◌else◌};
ghost use Rattle.std.specs.Option.{option_copied};
ghost use Rattle.cad_feature.specs.Values.{datum_of};
ghost use Rattle.cad_lookup.specs.Candidates.{candidates};
ghost use Rattle.cad_layer.specs.Identifiers.{is_item_of, of_object};
ghost use Rattle.cad_versions.specs.Command.{object_named};
ghost use Rattle.cad_changes.specs.Changes as changes;
ghost use Rattle.cad_changes.specs.inner.EditsOf.{datum_if_any};
ghost use Rattle.cad_changes.specs.Touching as spec;

use crate::adding::are_listed;
use crate::dependents::dependents;
use crate::edits::{NewValues, edited};
use crate::reading::{first_of, last_of, party_of, unit_of};
use cad_day::Day;
use cad_feature::{Feature, Value};
use cad_layer::{Layer, as_changes, merge};
use cad_run::{Candidates, FeatureSource, Plan};
use cad_schema::Collection;
use cad_versions::{Command, ObjectId};
use std::alloc::{AllocError, Global};

fn closing_day(command: &Command) -> Option<Day>
    ensures { result ≡ spec.closing_day command.now }
{
    match command {
        Command::Enter { .. } => None,
        Command::Amend { first, .. } => Some(first.before()),
        Command::Retire { last, .. } => Some(*last),
    }
}

fn is_closing(command: &Command) -> bool
    ensures { result ≡ spec.is_closing command.now }
{
    match command {
        Command::Enter { .. } => false,
        Command::Amend { .. } => true,
        Command::Retire { .. } => true,
    }
}

fn is_of(feature: &Feature, object: ObjectId) -> bool
    ensures { result ≡ is_item_of object feature.now }
{
    feature.object.number() == object.number()
}

fn is_open_of(feature: &Feature, object: ObjectId) -> bool
    ensures { result ≡ (is_item_of object feature.now && is_none (spec.last_of feature.now)) }
{
    is_of(feature, object) && last_of(feature).is_none()
}

/// Whether the feature is the open version that the command closes.
fn closes(command: &Command, feature: &Feature) -> bool
    ensures { result ≡ spec.closes command.now feature.now }
{
    is_closing(command) && is_open_of(feature, command.object())
}

/// The day on which the command closes the feature, if it does.
fn closing_of(command: &Command, feature: &Feature) -> Option<Day>
    ensures { result ≡ (if spec.closes command.now feature.now then spec.closing_day command.now else None) }
{
    if closes(command, feature) {
        closing_day(command)
    } else {
        None
    }
}

/// Whether the command may change the name of its object on the day.
fn renames_on(command: &Command, day: Day) -> bool
    ensures { result ≡ changes.renames_on command.now day }
{
    match command {
        Command::Enter { first, .. } => first.number() <= day.number(),
        Command::Amend { first, .. } => first.number() <= day.number(),
        Command::Retire { last, .. } => last.number() < day.number(),
    }
}

fn renames(command: &Command, feature: &Feature) -> bool
    ensures { result ≡ spec.renames command.now feature.now }
{
    match first_of(feature) {
        None => false,
        Some(day) => renames_on(command, day),
    }
}

fn is_numbered(object: ObjectId, number: Option<i64>) -> bool
    ensures { result ≡ spec.is_numbered object number }
{
    match number {
        None => false,
        Some(number) => number == i64::from(object.number()),
    }
}

fn names_unit(command: &Command, collection: Collection, feature: &Feature) -> bool
    ensures { result ≡ spec.names_unit command.now collection feature.now }
{
    is_numbered(command.object(), unit_of(feature, collection))
}

fn names_party(command: &Command, collection: Collection, feature: &Feature) -> bool
    ensures { result ≡ spec.names_party command.now collection feature.now }
{
    is_numbered(command.object(), party_of(feature, collection))
}

fn renames_unit(command: &Command, collection: Collection, feature: &Feature) -> bool
    ensures { result ≡ (spec.renames command.now feature.now && spec.names_unit command.now collection feature.now) }
{
    renames(command, feature) && names_unit(command, collection, feature)
}

fn renames_party(command: &Command, collection: Collection, feature: &Feature) -> bool
    ensures { result ≡ (spec.renames command.now feature.now && spec.names_party command.now collection feature.now) }
{
    renames(command, feature) && names_party(command, collection, feature)
}

fn names(command: &Command, collection: Collection, feature: &Feature) -> bool
    ensures { result ≡ spec.names_object command.now collection feature.now }
{
    names_unit(command, collection, feature) || names_party(command, collection, feature)
}

fn may_rename(command: &Command, collection: Collection, feature: &Feature) -> bool
    ensures { result ≡ (spec.renames command.now feature.now && spec.names_object command.now collection feature.now) }
{
    renames(command, feature) && names(command, collection, feature)
}

/// Whether the feature is closed, or joined with a name that may be different after the command.
fn touches(command: &Command, collection: Collection, feature: &Feature) -> bool
    ensures { result ≡ spec.touches command.now collection feature.now }
{
    closes(command, feature) || may_rename(command, collection, feature)
}

/// The name of the command's object on the days on which the command may change it.
fn name_after(command: &Command) -> Result<Value, AllocError>
    ensures { IfOk result (λ name. datum_of name ≡ spec.name_after command.now) }
{
    let Some(body) = command.body() else {
        return Ok(Value::Null);
    };
    let Some(words) = body.name() else {
        return Ok(Value::Null);
    };
    let text = words.text()?;
    Ok(Value::Text(text))
}

fn name_if(test: bool, name: &Value) -> Option<&Value>
    ensures { datum_if_any (option_copied result) ≡ (if test then Some (datum_of name.now) else None) }
{
    if test { Some(name) } else { None }
}

/// The feature as the command leaves it; its object has this name from then on.
fn left(
    alloc: Global,
    command: &Command,
    collection: Collection,
    name: &Value,
    feature: &Feature,
) -> Result<Feature, AllocError>
    requires { datum_of name.now ≡ spec.name_after command.now }
    ensures { IfOk result (λ x. x ≡ spec.item_left command.now collection feature.now) }
{
    let new = NewValues {
        closing: closing_of(command, feature),
        unit_name: name_if(renames_unit(command, collection, feature), name),
        party_name: name_if(renames_party(command, collection, feature), name),
    };
    edited(alloc, new, collection, feature)
}

/// Puts the feature behind the others if the command touches it, as the command leaves it.
fn push_left(
    alloc: Global,
    command: &Command,
    collection: Collection,
    name: &Value,
    feature: &Feature,
    others: &mut Vec<Feature>,
) -> Result<(), AllocError>
    requires { datum_of name.now ≡ spec.name_after command.now }
    ensures { OnOk result (others.new.items ≡ others.old.items ++ spec.items_left command.now collection (feature.now ∷ [])) }
{
    if !touches(command, collection, feature) {
        return Ok(());
    }
    let feature = left(alloc, command, collection, name, feature)?;
    others.push(feature)?;
    Ok(())
}

/// The features of the command's own object that it touches, as it leaves them.
fn own_left(
    alloc: Global,
    command: &Command,
    name: &Value,
    features: &Layer,
) -> Result<Vec<Feature>, AllocError>
    requires { datum_of name.now ≡ spec.name_after command.now }
    ensures { IfOk result (λ all. all.items ≡ spec.items_left command.now features.now.collection (of_object (object_named command.now) features.now.features)) }
{
    let collection = features.collection();
    let mut all = Vec::new(alloc);
    let mut walk = features.versions_of(command.object());
    while let Some(feature) = walk.next() {
        push_left(alloc, command, collection, name, feature, &mut all)?;
    }
    Ok(all)
}

/// The plan's candidates that the command touches, as it leaves them.
fn candidates_left(
    alloc: Global,
    command: &Command,
    name: &Value,
    plan: &Plan,
    features: &Layer,
) -> Result<Vec<Feature>, AllocError>
    requires { datum_of name.now ≡ spec.name_after command.now }
    ensures { IfOk result (λ all. all.items ≡ spec.items_left command.now features.now.collection (candidates plan.now features.now.features)) }
{
    let collection = features.collection();
    let mut all = Vec::new(alloc);
    let mut left = Candidates::of(alloc, plan, features);
    while let Some(feature) = left.next()? {
        push_left(alloc, command, collection, name, feature, &mut all)?;
    }
    Ok(all)
}

/// The features that name the command's object, those that it touches, as it leaves them.
fn named_left(
    alloc: Global,
    command: &Command,
    name: &Value,
    features: &Layer,
) -> Result<Vec<Feature>, AllocError>
    requires { datum_of name.now ≡ spec.name_after command.now }
    ensures { IfOk result (λ all. all.items ≡ spec.items_left command.now features.now.collection (filter (spec.names_object command.now features.now.collection) features.now.features)) }
{
    let plan = dependents(alloc, command, features.collection())?;
    let all = candidates_left(alloc, command, name, &plan, features)?;
    Ok(all)
}

/// The features that the command touches, as it leaves them.
///
/// It closes only features of its own object, and renames only those that name the object. Both are searched for, so the cost does not
/// grow with the features that it leaves as they are.
pub(crate) fn features_left(
    alloc: Global,
    command: &Command,
    features: &Layer,
) -> Result<Vec<Feature>, AllocError>
    ensures { IfOk result (λ all. all.items ≡ spec.items_left command.now features.now.collection features.now.features) }
{
    are_listed(features);
    let name = name_after(command)?;
    let own = own_left(alloc, command, &name, features)?;
    let named = named_left(alloc, command, &name, features)?;
    let others = as_changes(alloc, named)?;
    let all = merge(alloc, &own, &others)?;
    Ok(all)
}
