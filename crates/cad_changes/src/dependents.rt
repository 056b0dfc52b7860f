//! The features that name an object.

ghost use Rattle.std.specs.Prelude.{◌≡◌, ◌||◌, Some, IfOk, pos};
ghost use Rattle.cad_versions.specs.Objects.{object_number};
ghost use Rattle.cad_feature.specs.Features.{Item};
ghost use Rattle.cad_feature.specs.Limits.{with_value, limit_of};
ghost use Rattle.cad_feature.specs.Values.{a_whole};
ghost use Rattle.cad_lookup.specs.Candidates.{is_candidate};
ghost use Rattle.cad_changes.specs.Touching as spec;

use crate::reading::{party_place, unit_place};
use cad_feature::{Edge, Range, Scalar};
use cad_run::Plan;
use cad_schema::Collection;
use cad_versions::{Command, ObjectId};
use std::alloc::{AllocError, Global};

/// The number of the object, as an end of a range.
fn edge_of(object: ObjectId) -> Edge
    ensures { limit_of result ≡ with_value (a_whole (pos (object_number object))) }
{
    Edge::With(Scalar::Whole(i64::from(object.number())))
}

/// The features whose value at that place is the object's number.
fn numbered(object: ObjectId, place: usize) -> Plan
    ensures { (x : Item) → is_candidate result x ≡ spec.is_numbered object (spec.number_at x (Some place)) }
{
    Plan::Range(Range {
        property: place,
        low: edge_of(object),
        high: edge_of(object),
    })
}

/// The same; without such a place, no features.
fn numbered_if_any(object: ObjectId, place: Option<usize>) -> Plan
    ensures { (x : Item) → is_candidate result x ≡ spec.is_numbered object (spec.number_at x place) }
{
    match place {
        None => Plan::Empty,
        Some(place) => numbered(object, place),
    }
}

/// The candidates of either plan.
fn either(alloc: Global, one: Plan, other: Plan) -> Result<Plan, AllocError>
    ensures { IfOk result (λ plan. (x : Item) → is_candidate plan x ≡ (is_candidate one x || is_candidate other x)) }
{
    let mut plans = Vec::with_capacity(alloc, 2)?;
    plans.push(one)?;
    plans.push(other)?;
    Ok(Plan::Join(plans))
}

/// The features of the collection that name the command's object as their unit or as their party.
pub(crate) fn dependents(
    alloc: Global,
    command: &Command,
    collection: Collection,
) -> Result<Plan, AllocError>
    ensures { IfOk result (λ plan. (x : Item) → is_candidate plan x ≡ spec.names_object command.now collection x) }
{
    let by_unit = numbered_if_any(command.object(), unit_place(collection));
    let by_party = numbered_if_any(command.object(), party_place(collection));
    let plan = either(alloc, by_unit, by_party)?;
    Ok(plan)
}
