//! Shapes of the plane.

ghost use Rattle.std.specs.Prelude.{◌≡◌};
ghost use Rattle.cad_shape.specs.Shapes.{lent_shape};

use crate::{Bounds, Point, Region};

/// A point, a closed box or a region, including its boundary.
#[derive(Debug, Drop)]
pub enum Shape {
    /// A point alone.
    Spot(Point),
    /// A closed box, which may be flat.
    Frame(Bounds),
    /// A region with its holes.
    Area(Region),
}

/// A shape that borrows its region, if it has one: so a region that is kept elsewhere is judged without a copy.
#[derive(Clone, Copy, Debug)]
pub enum ShapeRef<'a> {
    /// A point alone.
    Spot(Point),
    /// A closed box, which may be flat.
    Frame(Bounds),
    /// A region with its holes.
    Area(&'a Region),
}

impl Shape {
    /// The shape with its region borrowed.
    pub fn lent(&self) -> ShapeRef<'_>
        ensures { lent_shape result ≡ self.now }
    {
        match self {
            Shape::Spot(point) => ShapeRef::Spot(*point),
            Shape::Frame(bounds) => ShapeRef::Frame(*bounds),
            Shape::Area(region) => ShapeRef::Area(region),
        }
    }
}
