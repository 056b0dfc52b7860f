//! Edges of two shapes that share a point.

ghost use Rattle.std.specs.Prelude.{◌↔◌, ◌<◌, IsTrue, length};
ghost use Rattle.std.specs.List.{All};
ghost use Rattle.cad_shape.specs.Segments.{Meet};
ghost use Rattle.cad_shape.specs.Edges.{walk, edges_of};
ghost use Rattle.cad_shape.specs.Frames.{IsHeld};
ghost use Rattle.cad_shape.specs.Polygons.{rings_edges};
ghost use Rattle.cad_shape.specs.Regions.{MeetsSome, SomeMeet};
ghost use Rattle.cad_shape.specs.Shapes.{lent_shape, shape_edges};

use crate::segment::{is_beside, segments_meet};
use crate::{Bounds, Point, Ring, ShapeRef};

// Whether the segment from `p` to `q` shares a point with the walk from `start` through the corners in order.
fn meets_walk(p: Point, q: Point, start: Point, corners: &[Point]) -> bool
    ensures { IsTrue result ↔ MeetsSome p q (walk start corners.now) }
{
    let mut from = start;
    for corner in corners {
        if segments_meet(p, q, from, *corner) {
            return true;
        }
        from = *corner;
    }
    false
}

// Whether the segment from `p` to `q` shares a point with the ring through these corners.
fn meets_ring(p: Point, q: Point, corners: &[Point]) -> bool
    requires { 0 < length corners.now }
    ensures { IsTrue result ↔ MeetsSome p q (edges_of corners.now) }
{
    meets_walk(p, q, corners[corners.len() - 1], corners)
}

// The same, but a box that holds the ring is checked first.
fn meets_ring_within(p: Point, q: Point, bounds: Bounds, corners: &[Point]) -> bool
    requires some { 0 < length corners.now }
    requires held { All (IsHeld bounds) corners.now }
    ensures { IsTrue result ↔ MeetsSome p q (edges_of corners.now) }
{
    !is_beside(bounds, p, q) && meets_ring(p, q, corners)
}

// Whether the walk from `start` through the corners shares a point with the ring inside the box.
fn walk_meets_ring(start: Point, corners: &[Point], bounds: Bounds, ring: &[Point]) -> bool
    requires some { 0 < length ring.now }
    requires held { All (IsHeld bounds) ring.now }
    ensures { IsTrue result ↔ SomeMeet (walk start corners.now) (edges_of ring.now) }
{
    let mut from = start;
    for corner in corners {
        if meets_ring_within(from, *corner, bounds, ring) {
            return true;
        }
        from = *corner;
    }
    false
}

// Whether the rings through these corners, the second of which lies in the box, share a point.
fn rings_meet(corners: &[Point], bounds: Bounds, ring: &[Point]) -> bool
    requires corners_some { 0 < length corners.now }
    requires some { 0 < length ring.now }
    requires held { All (IsHeld bounds) ring.now }
    ensures { IsTrue result ↔ SomeMeet (edges_of corners.now) (edges_of ring.now) }
{
    walk_meets_ring(corners[corners.len() - 1], corners, bounds, ring)
}

// Whether the ring through these corners shares a point with some of the rings.
fn corners_meet_rings(corners: &[Point], rings: &[Ring]) -> bool
    requires { 0 < length corners.now }
    ensures { IsTrue result ↔ SomeMeet (edges_of corners.now) (rings_edges rings.now) }
{
    for ring in rings {
        if rings_meet(corners, ring.bounds(), ring.corners()) {
            return true;
        }
    }
    false
}

// Whether the ring through these corners shares a point with an edge of the shape.
fn corners_meet_shape(corners: &[Point], shape: ShapeRef) -> bool
    requires { 0 < length corners.now }
    ensures { IsTrue result ↔ SomeMeet (edges_of corners.now) (shape_edges (lent_shape shape.entry)) }
{
    match shape {
        ShapeRef::Spot(_) => false,
        ShapeRef::Frame(frame) => rings_meet(corners, frame, &frame.corners()),
        ShapeRef::Area(region) => corners_meet_rings(corners, region.rings()),
    }
}

// Whether some of the rings shares a point with an edge of the shape.
fn rings_meet_shape(rings: &[Ring], shape: ShapeRef) -> bool
    ensures { IsTrue result ↔ SomeMeet (rings_edges rings.now) (shape_edges (lent_shape shape.entry)) }
{
    for ring in rings {
        if corners_meet_shape(ring.corners(), shape) {
            return true;
        }
    }
    false
}

// Whether an edge of the first shares a point with one of the second.
pub(crate) fn edges_meet(a: ShapeRef, b: ShapeRef) -> bool
    ensures { IsTrue result ↔ SomeMeet (shape_edges (lent_shape a.entry)) (shape_edges (lent_shape b.entry)) }
{
    match a {
        ShapeRef::Spot(_) => false,
        ShapeRef::Frame(frame) => corners_meet_shape(&frame.corners(), b),
        ShapeRef::Area(region) => rings_meet_shape(region.rings(), b),
    }
}
