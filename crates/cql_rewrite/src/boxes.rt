//! A box as a filter.

ghost use Rattle.std.specs.Prelude.{◌≡◌};
ghost use Rattle.cad_feature.specs.Features.{Item};
ghost use Rattle.cql_meaning.specs.Sides.{yes};
ghost use Rattle.cql_rewrite.specs.Boxes.{meets_box, box_condition as condition_of};

use cad_shape::{Bounds, Shape};
use cql_lexer::SpatialRelation;
use cql_types::{Filter, ShapeTerm};

/// The filter that is true of those features whose geometry meets the box. `geometry` is the place of the geometry in the
/// collection's schema, if it has one.
pub fn box_condition(geometry: Option<usize>, bounds: Bounds) -> Filter
    ensures condition { result ≡ condition_of geometry bounds }
    ensures says { (x : Item) → yes result x ≡ meets_box x geometry bounds }
{
    match geometry {
        Some(property) => Filter::Spatial {
            by: SpatialRelation::Intersects,
            left: ShapeTerm::Property(property),
            right: ShapeTerm::Constant(Shape::Frame(bounds)),
        },
        None => Filter::Truth(false),
    }
}
