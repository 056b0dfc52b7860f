//! What a command touches of the features of a collection.

ghost use Rattle.std.specs.Prelude.{◌≡◌, List, [], ◌∷◌, ◌++◌, length, map, IfOk};
ghost use Rattle.std.specs.List.Sorted.{IsStrictlySortedBy};
ghost use Rattle.cad_versions.specs.declared.command.Command.{Command as CommandOf};
ghost use Rattle.cad_versions.specs.AsOf.{as_of};
ghost use Rattle.cad_versions.specs.Refusals.{AreAccepted};
ghost use Rattle.cad_schema.specs.declared.collection.Collection.TheVariants.{Units, Parties};
ghost use Rattle.cad_feature.specs.Features.{by_identifier, AreFeaturesOf};
ghost use Rattle.cad_feature.specs.Flatten.{features_in};
ghost use Rattle.cad_layer.specs.Merging.{put_if};
ghost use Rattle.cad_history.specs.Rows.{bare};
ghost use Rattle.cad_changes.specs.Changes as changes;
ghost use Rattle.cad_changes.specs.Touching.{items_touched};

use crate::adding::{are_listed, feature_added};
use crate::leaving::features_left;
use cad_feature::Feature;
use cad_layer::{Layer, as_changes, merge};
use cad_versions::Command;
use std::alloc::{AllocError, Global};

/// The features, with the added one in its place.
fn with_added(
    alloc: Global,
    features: Vec<Feature>,
    added: Option<Feature>,
) -> Result<Vec<Feature>, AllocError>
    requires { IsStrictlySortedBy by_identifier features.items }
    ensures { IfOk result (λ all. all.items ≡ put_if by_identifier added features.items) }
{
    let Some(feature) = added else {
        return Ok(features);
    };
    let mut one = Vec::new(alloc);
    one.push(feature)?;
    let change = as_changes(alloc, one)?;
    merge(alloc, &features, &change)
}

/// The features of a collection that are new after the command, or may be different from before. They are determined by the features of
/// the collection, the units and the parties at the revision before it. An error means out of memory.
///
/// If the command is accepted, merging them into the features of the revision before it gives those of the revision after it.
pub fn touched(
    alloc: Global,
    command: &Command,
    features: &Layer,
    units: &Layer,
    parties: &Layer,
) -> Result<Vec<Feature>, AllocError>
    requires units { units.now.collection ≡ Units }
    requires parties { parties.now.collection ≡ Parties }
    ensures items { IfOk result (λ all. all.items ≡ items_touched features.now.features units.now.features parties.now.features command.now features.now.collection) }
    ensures listed { IfOk result (λ all. AreFeaturesOf features.now.collection all.items) }
    ensures touched { IfOk result (λ all. (commands : List CommandOf) → AreAccepted [] (commands ++ command.now ∷ [])
        → features.now.features ≡ features_in (as_of (length commands) commands) features.now.collection
        → units.now.features ≡ features_in (as_of (length commands) commands) Units
        → parties.now.features ≡ features_in (as_of (length commands) commands) Parties
        → all.items ≡ changes.touched (as_of (length commands) commands) command.now features.now.collection) }
    // The same of features with periods of their own.
    ensures rows { IfOk result (λ all. (commands : List CommandOf) → AreAccepted [] (commands ++ command.now ∷ [])
        → map bare features.now.features ≡ features_in (as_of (length commands) commands) features.now.collection
        → map bare units.now.features ≡ features_in (as_of (length commands) commands) Units
        → map bare parties.now.features ≡ features_in (as_of (length commands) commands) Parties
        → map bare all.items ≡ changes.touched (as_of (length commands) commands) command.now features.now.collection) }
{
    are_listed(features);
    let left = features_left(alloc, command, features)?;
    let added = feature_added(alloc, command, features, units, parties)?;
    let all = with_added(alloc, left, added)?;
    Ok(all)
}
