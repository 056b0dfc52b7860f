//! The forms of S_ functions.

ghost use Rattle.std.specs.Prelude.{◌≡◌, ◌≤◌, List, true};
ghost use Rattle.cad_feature.specs.Features.{Item};
ghost use Rattle.cql_types.specs.declared.filter.Filter.TheVariants.{Spatial};
ghost use Rattle.cql_rewrite.specs.Atoms.{HasPlainAtoms};
ghost use Rattle.cql_rewrite.specs.Costs.{is_near_by, least, near_bound, near_terms};
ghost use Rattle.cql_rewrite.specs.Meets.{Written, in_side, meets};

use crate::form::Normal;
use crate::laws::spatial_is_near;
use cql_lexer::SpatialRelation;
use cql_types::{Filter, ShapeTerm};

fn is_near(by: SpatialRelation) -> bool
    ensures { result ≡ is_near_by by }
{
    match by {
        SpatialRelation::Disjoint => false,
        SpatialRelation::Intersects | SpatialRelation::Within | SpatialRelation::Contains => true,
    }
}

// The form for the features of which the relation of a property and a constant shape is true.
fn near<'a>(
    filter: &'a Filter,
    by: SpatialRelation,
    left: &'a ShapeTerm,
    right: &'a ShapeTerm,
) -> Normal<'a>
    requires filter { filter.now ≡ Spatial by left.now right.now }
    requires near { is_near_by by ≡ true }
    ensures stands { (x : Item) → meets x result ≡ in_side true x filter.now }
    ensures costs { (t : List Written) → least t result ≤ near_terms t left.now right.now }
    ensures atoms { HasPlainAtoms result }
{
    spatial_is_near();
    match (left, right) {
        (ShapeTerm::Property(property), ShapeTerm::Constant(shape)) => Normal::Near {
            filter,
            property: *property,
            shape,
        },
        (ShapeTerm::Constant(shape), ShapeTerm::Property(property)) => Normal::Near {
            filter,
            property: *property,
            shape,
        },
        (ShapeTerm::Property(_), ShapeTerm::Property(_))
        | (ShapeTerm::Constant(_), ShapeTerm::Constant(_)) => Normal::Atom { filter, side: true },
    }
}

/// The form of an S_ function.
pub(crate) fn spatial<'a>(
    filter: &'a Filter,
    by: SpatialRelation,
    left: &'a ShapeTerm,
    right: &'a ShapeTerm,
    side: bool,
) -> Normal<'a>
    requires { filter.now ≡ Spatial by left.now right.now }
    ensures stands { (x : Item) → meets x result ≡ in_side side x filter.now }
    ensures costs { side ≡ true → (t : List Written) → least t result ≤ near_bound t by left.now right.now }
    ensures atoms { HasPlainAtoms result }
{
    if side && is_near(by) {
        return near(filter, by, left, right);
    }
    Normal::Atom { filter, side }
}
