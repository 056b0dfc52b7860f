//! Areas inside rings.

ghost use Rattle.std.specs.Prelude.{◌≡◌, ◌<◌, ◌≤◌, length};
ghost use Rattle.cad_shape.specs.Edges.{walk, edges_of};
ghost use Rattle.cad_shape.specs.Areas.{sweep, doubled_area, IsSweep};

use crate::Point;
use crate::segment::product;

fn sweep_of(p: Point, q: Point) -> i128
    ensures value { result ≡ sweep p q }
    ensures small { IsSweep result }
{
    product(p.x, q.y) - product(q.x, p.y)
}

// Over the edges from `start` through the corners in order.
fn swept_over(start: Point, corners: &[Point]) -> i128
    requires { length corners.now ≤ 1000 }
    ensures { result ≡ doubled_area (walk start corners.now) }
{
    let mut from = start;
    let mut sum: i128 = 0;
    for corner in corners {
        sum += sweep_of(from, *corner);
        from = *corner;
    }
    sum
}

// Twice the signed area of the ring through these corners.
pub(crate) fn area_doubled(corners: &[Point]) -> i128
    requires some { 0 < length corners.now }
    requires few { length corners.now ≤ 1000 }
    ensures { result ≡ doubled_area (edges_of corners.now) }
{
    swept_over(corners[corners.len() - 1], corners)
}
