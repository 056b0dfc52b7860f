//! What holds of normal forms. Each contract is a law; the functions do nothing.

ghost use Rattle.cql_rewrite.specs.Laws.{
  ChoicesAreTheFirstOfLeast,
  ChoicesCostTheLeast,
  FeaturesAreWritten,
  MenusCover,
  SpatialIsNear,
};

use cad_grid::laws::shared_cells_are_touched;
use cad_schema::Collection;
use cad_shape::laws::{bounds_overlap, meeting_is_symmetric, tests_tell, within_meets};

/// The features of a collection hold only characters, as `normal` requires of the features that it speaks of.
pub fn features_are_written(collection: Collection)
    ensures { FeaturesAreWritten collection }
{}

/// The choice of a form's menu costs no more than the least that `normal` speaks of, over any list of features.
pub fn choices_cost_the_least()
    ensures { ChoicesCostTheLeast }
{}

/// The choice of a form's menu is one of the menu, costs no more than any of it, and less than each that comes before it, no matter how
/// features are counted.
pub fn choices_are_the_first_of_least()
    ensures { ChoicesAreTheFirstOfLeast }
{}

/// Each way of a form's menu has each feature that meets the form, no matter how features are counted, and so has the choice.
pub fn menus_cover()
    ensures { MenusCover }
{}

/// If S_INTERSECTS, S_WITHIN or S_CONTAINS with a shape is true of a feature, the feature is near the shape.
pub fn spatial_is_near()
    ensures { SpatialIsNear }
{
    bounds_overlap();
    meeting_is_symmetric();
    within_meets();
    tests_tell();
    shared_cells_are_touched();
}
