//! What holds of changes. Each contract is a law; the functions do nothing.

ghost use Rattle.cad_changes.specs.Laws.{NextRevision, NextFeatures, TouchedAscends, TouchedStands, FeaturesTellTouched};

/// The versions at the next revision are those at the last one, as the command leaves them.
pub fn next_revision()
    ensures { NextRevision }
{}

/// The features at the next revision are those at the last one, merged with those that the command touches.
pub fn next_features()
    ensures { NextFeatures }
{}

/// What a command touches ascends by identifier, and is among the features of the next revision.
pub fn touched_is_listed()
    ensures order { TouchedAscends }
    ensures stands { TouchedStands }
{}

/// The features before a command determine what it touches: those of the collection, the units and the parties.
pub fn features_tell_touched()
    ensures { FeaturesTellTouched }
{}
