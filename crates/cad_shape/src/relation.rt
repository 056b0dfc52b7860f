//! Whether two shapes meet, and whether one lies within another.

ghost use Rattle.std.specs.Prelude.{◌≡◌, ◌↔◌, IsTrue, IfSome, is_some};
ghost use Rattle.cad_shape.specs.Frames.{IsLeastBounds};
ghost use Rattle.cad_shape.specs.Polygons.{rings_corners};
ghost use Rattle.cad_shape.specs.Shapes.{shape_corners, IsSamePoint, IsIn, SomeIn, RegionsMeet, RegionMeets, Meets};
ghost use Rattle.cad_shape.specs.Shapes.{IsInside, AreFramed, IsWithin, is_frame, is_judged, lent_shape};
ghost use Rattle.cad_shape.specs.Tests.{shapes_meet, within as within_test};

use crate::location::{in_region, location_by_region};
use crate::meeting::edges_meet;
use crate::region::is_on_ring;
use crate::{Bounds, Point, Ring, Shape, ShapeRef};

fn is_same_point(p: Point, q: Point) -> bool
    ensures { IsTrue result ↔ IsSamePoint p q }
{
    p.x == q.x && p.y == q.y
}

// Whether the point lies in the shape, including its boundary.
fn is_in(point: Point, shape: ShapeRef) -> bool
    ensures { IsTrue result ↔ IsIn point (lent_shape shape.entry) }
{
    match shape {
        ShapeRef::Spot(spot) => is_same_point(point, spot),
        ShapeRef::Frame(bounds) => bounds.holds(point),
        ShapeRef::Area(region) => in_region(point, region),
    }
}

fn some_in(points: &[Point], shape: ShapeRef) -> bool
    ensures { IsTrue result ↔ SomeIn points.now (lent_shape shape.entry) }
{
    for point in points {
        if is_in(*point, shape) {
            return true;
        }
    }
    false
}

fn some_ring_in(rings: &[Ring], shape: ShapeRef) -> bool
    ensures { IsTrue result ↔ SomeIn (rings_corners rings.now) (lent_shape shape.entry) }
{
    for ring in rings {
        if some_in(ring.corners(), shape) {
            return true;
        }
    }
    false
}

// Whether some corner of the first lies in the second.
fn some_corner_in(a: ShapeRef, b: ShapeRef) -> bool
    ensures { IsTrue result ↔ SomeIn (shape_corners (lent_shape a.entry)) (lent_shape b.entry) }
{
    match a {
        ShapeRef::Spot(point) => is_in(point, b),
        ShapeRef::Frame(frame) => some_in(&frame.corners(), b),
        ShapeRef::Area(region) => some_ring_in(region.rings(), b),
    }
}

fn regions_meet(a: ShapeRef, b: ShapeRef) -> bool
    ensures { IsTrue result ↔ RegionsMeet (lent_shape a.entry) (lent_shape b.entry) }
{
    edges_meet(a, b) || some_corner_in(a, b) || some_corner_in(b, a)
}

// Whether the region `a` meets the shape `b`.
fn region_meets(a: ShapeRef, b: ShapeRef) -> bool
    ensures { IsTrue result ↔ RegionMeets (lent_shape a.entry) (lent_shape b.entry) }
{
    match b {
        ShapeRef::Spot(point) => is_in(point, a),
        ShapeRef::Frame(_) => regions_meet(a, b),
        ShapeRef::Area(_) => regions_meet(a, b),
    }
}

// Whether the two share a point, without comparing their bounds first.
fn meets_closely(a: ShapeRef, b: ShapeRef) -> bool
    ensures { IsTrue result ↔ Meets (lent_shape a.entry) (lent_shape b.entry) }
{
    match a {
        ShapeRef::Spot(point) => is_in(point, b),
        ShapeRef::Frame(_) => region_meets(a, b),
        ShapeRef::Area(_) => region_meets(a, b),
    }
}

// Whether the point lies in the shape and on no edge of it.
fn is_inside(point: Point, shape: ShapeRef) -> bool
    ensures { IsTrue result ↔ IsInside point (lent_shape shape.entry) }
{
    match shape {
        ShapeRef::Spot(spot) => is_same_point(point, spot),
        ShapeRef::Frame(frame) => frame.holds(point) && !is_on_ring(point, &frame.corners()),
        ShapeRef::Area(region) => location_by_region(point, region).is_interior(),
    }
}

// Whether the second shape is a frame that holds all corners of the first; None if it is not a frame.
fn is_framed(a: ShapeRef, b: ShapeRef) -> Option<bool>
    ensures judged { is_some result ≡ is_frame (lent_shape b.entry) }
    ensures answer { IfSome result (λ framed. IsTrue framed ↔ AreFramed (shape_corners (lent_shape a.entry)) (lent_shape b.entry)) }
{
    match b {
        ShapeRef::Spot(_) => None,
        ShapeRef::Frame(frame) => Some(frame.covers(a.bounds())),
        ShapeRef::Area(_) => None,
    }
}

// Whether the two share a point; their bounds are compared first.
fn lent_meet(a: ShapeRef, b: ShapeRef) -> bool
    ensures { IsTrue result ↔ Meets (lent_shape a.entry) (lent_shape b.entry) }
{
    a.bounds().overlaps(b.bounds()) && meets_closely(a, b)
}

// Whether the first lies within the second; None for a region in anything but a frame.
fn lent_within(a: ShapeRef, b: ShapeRef) -> Option<bool>
    ensures judged { is_some result ≡ is_judged (lent_shape a.entry) (lent_shape b.entry) }
    ensures answer { IfSome result (λ inside. IsTrue inside ↔ IsWithin (lent_shape a.entry) (lent_shape b.entry)) }
{
    match a {
        ShapeRef::Spot(point) => Some(is_inside(point, b)),
        ShapeRef::Frame(_) => is_framed(a, b),
        ShapeRef::Area(_) => is_framed(a, b),
    }
}

impl ShapeRef<'_> {
    /// The least box that holds the shape: for a region that of its exterior boundary, for a point that of the point alone.
    pub fn bounds(self) -> Bounds
        ensures { IsLeastBounds result (shape_corners (lent_shape self.entry)) }
    {
        match self {
            ShapeRef::Spot(point) => Bounds::at(point),
            ShapeRef::Frame(bounds) => bounds,
            ShapeRef::Area(region) => region.bounds(),
        }
    }

    /// Whether the two shapes share a point: see [`meets`].
    pub fn meets(self, other: ShapeRef) -> bool
        ensures meaning { IsTrue result ↔ Meets (lent_shape self.entry) (lent_shape other.entry) }
        ensures test { result ≡ shapes_meet (lent_shape self.entry) (lent_shape other.entry) }
    {
        lent_meet(self, other)
    }

    /// Whether this shape lies within the other: see [`within`].
    pub fn within(self, other: ShapeRef) -> Option<bool>
        ensures judged { is_some result ≡ is_judged (lent_shape self.entry) (lent_shape other.entry) }
        ensures answer { IfSome result (λ inside. IsTrue inside ↔ IsWithin (lent_shape self.entry) (lent_shape other.entry)) }
        ensures test { result ≡ within_test (lent_shape self.entry) (lent_shape other.entry) }
    {
        lent_within(self, other)
    }
}

/// The least box that holds the shape: for a region that of its exterior boundary, for a point that of the point alone.
pub fn bounds(shape: &Shape) -> Bounds
    ensures { IsLeastBounds result (shape_corners shape.now) }
{
    shape.lent().bounds()
}

/// Whether the two shapes share a point: an edge of one meets an edge of the other, or a corner of one lies in the
/// other.
pub fn meets(a: &Shape, b: &Shape) -> bool
    ensures { IsTrue result ↔ Meets a.now b.now }
{
    a.lent().meets(b.lent())
}

/// Whether the first shape lies within the second: for a point in a point, if they are equal; for a point in a region, if it lies in it and
/// on no edge; for a region in a frame, if the closed frame holds all its corners. None for a region in anything but a frame.
pub fn within(a: &Shape, b: &Shape) -> Option<bool>
    ensures judged { is_some result ≡ is_judged a.now b.now }
    ensures answer { IfSome result (λ inside. IsTrue inside ↔ IsWithin a.now b.now) }
{
    a.lent().within(b.lent())
}
