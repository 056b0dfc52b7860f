//! Shapes.

ghost use Rattle.std.specs.Prelude.{◌≡◌, option_map};
ghost use Rattle.cad_shape.specs.Shapes.{lent_shape};
ghost use Rattle.cql_meaning.specs.Said.{said};
ghost use Rattle.cql_meaning.specs.Sides.{sides_of, spatial as spatial_of};
ghost use Rattle.cql_meaning.specs.Values.{both, shape_value};

use crate::verdict::{Truth, truth_of};
use cad_feature::Feature;
use cad_shape::ShapeRef;
use cql_lexer::SpatialRelation;
use cql_types::ShapeTerm;

/// The value of a term on a feature, if it has one. It is lent by the term or by the feature.
pub(crate) fn shape<'a>(term: &'a ShapeTerm, feature: &'a Feature) -> Option<ShapeRef<'a>>
    ensures { option_map lent_shape result ≡ shape_value feature.now term.now }
{
    match term {
        ShapeTerm::Constant(shape) => Some(shape.lent()),
        ShapeTerm::Property(place) => feature.value(*place)?.as_shape(),
    }
}

fn judged(by: SpatialRelation, a: ShapeRef, b: ShapeRef) -> Option<bool>
    ensures { result ≡ spatial_of by (lent_shape a.entry) (lent_shape b.entry) }
{
    match by {
        SpatialRelation::Intersects => Some(a.meets(b)),
        SpatialRelation::Disjoint => Some(!a.meets(b)),
        SpatialRelation::Within => a.within(b),
        SpatialRelation::Contains => b.within(a),
    }
}

pub(crate) fn spatial(by: SpatialRelation, left: Option<ShapeRef>, right: Option<ShapeRef>) -> Truth
    ensures { said result ≡ sides_of (both (spatial_of by) (option_map lent_shape left.entry) (option_map lent_shape right.entry)) }
{
    match (left, right) {
        (Some(a), Some(b)) => truth_of(judged(by, a, b)),
        (None, _) | (_, None) => Truth::Unknown,
    }
}
