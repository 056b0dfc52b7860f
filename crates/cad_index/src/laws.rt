//! Of which features an index gives the positions. Each contract is a law; the functions do nothing.

ghost use Rattle.cad_index.specs.Laws.{RangesHoldFeatures, RangesCountFeatures, GridsHoldFeatures, GridsCountFeatures, PropertiesAreIndexed};

/// A position is in a range exactly if the feature at it has a value inside.
pub fn ranges_hold_features()
    ensures { RangesHoldFeatures }
{}

/// There are as many positions in a range as features with a value inside.
pub fn ranges_count_features()
    ensures { RangesCountFeatures }
{}

/// A position is near a box exactly if the feature at it is.
pub fn grids_hold_features()
    ensures { GridsHoldFeatures }
{}

/// There are as many positions near a box as features.
pub fn grids_count_features()
    ensures { GridsCountFeatures }
{}

/// Each property of the collection has the index of its kind.
pub fn properties_are_indexed()
    ensures { PropertiesAreIndexed }
{}
