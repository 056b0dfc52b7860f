//! Points and the edges of a ring.

ghost use Rattle.std.specs.Prelude.{◌≡◌, ◌↔◌, ◌<◌, IsTrue, length};
ghost use Rattle.cad_shape.specs.Segments.{IsBetween};
ghost use Rattle.cad_shape.specs.Edges.{walk, edges_of};
ghost use Rattle.cad_shape.specs.Regions.{IsOnEdge, IsOnSome, CrossesRight, rises, passes};
ghost use Rattle.cad_shape.specs.Locations.{IsLocation};

use crate::Point;
use crate::location::Location;
use crate::segment::turn_at;

fn is_between(a: i64, b: i64, n: i64) -> bool
    ensures { IsTrue result ↔ IsBetween a b n }
{
    (a <= n && n <= b) || (b <= n && n <= a)
}

fn is_on_edge(point: Point, p: Point, q: Point) -> bool
    ensures { IsTrue result ↔ IsOnEdge point p q }
{
    if turn_at(p, q, point) != 0 {
        return false;
    }
    is_between(p.x, q.x, point.x) && is_between(p.y, q.y, point.y)
}

fn rises_past(point: Point, p: Point, q: Point) -> bool
    ensures { result ≡ rises point p q }
{
    p.y <= point.y && point.y < q.y
}

fn passes_left_of(point: Point, p: Point, q: Point) -> bool
    ensures { result ≡ passes point p q }
{
    if rises_past(point, p, q) {
        return 0 < turn_at(p, q, point);
    }
    if rises_past(point, q, p) {
        return 0 < turn_at(q, p, point);
    }
    false
}

// Whether the edge from `p` to `q` crosses the point's height right of the point.
#[tactic(auto, using(crate::proofs::Heights::passes_right, crate::proofs::Heights::right_passes))]
fn crosses_right(point: Point, p: Point, q: Point) -> bool
    ensures value { result ≡ passes point p q }
    ensures meaning { IsTrue result ↔ CrossesRight point p q }
{
    passes_left_of(point, p, q)
}

// Whether the point lies on the walk from `start` through the corners in order.
fn is_on_walk(point: Point, start: Point, corners: &[Point]) -> bool
    ensures { IsTrue result ↔ IsOnSome point (walk start corners.now) }
{
    let mut from = start;
    for corner in corners {
        if is_on_edge(point, from, *corner) {
            return true;
        }
        from = *corner;
    }
    false
}

// Whether the point lies on an edge of the ring through these corners.
pub(crate) fn is_on_ring(point: Point, corners: &[Point]) -> bool
    requires { 0 < length corners.now }
    ensures { IsTrue result ↔ IsOnSome point (edges_of corners.now) }
{
    is_on_walk(point, corners[corners.len() - 1], corners)
}

// Where the point lies relative to the edges of the walk from `start` through the corners in order.
fn location_by_walk(point: Point, start: Point, corners: &[Point]) -> Location
    ensures { IsLocation point (walk start corners.now) result }
{
    let mut from = start;
    let mut crossed: usize = 0;
    for corner in corners {
        if is_on_edge(point, from, *corner) {
            return Location::Boundary;
        }
        if crosses_right(point, from, *corner) {
            crossed += 1;
        }
        from = *corner;
    }
    Location::of_crossings(crossed)
}

// Where the point lies relative to the ring through these corners.
pub(crate) fn location_by_corners(point: Point, corners: &[Point]) -> Location
    requires { 0 < length corners.now }
    ensures { IsLocation point (edges_of corners.now) result }
{
    location_by_walk(point, corners[corners.len() - 1], corners)
}
