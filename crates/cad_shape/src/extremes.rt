//! Where a least box touches the points in it.

ghost use Rattle.std.specs.Prelude.{◌↔◌, ◌<◌, ◌≤◌, IsTrue, length};
ghost use Rattle.cad_shape.specs.inner.Extremes.{IsFarther, IsFarthest, AreExtremes};
ghost use Rattle.cad_shape.specs.Frames.{IsLeastBounds};

use crate::{Bounds, Point};

// A direction of the plane.
#[derive(Clone, Copy, Debug, PartialEq, Eq)]
enum Way {
    West,
    South,
    East,
    North,
}

// Four indices into a list of at most 1,000 points, of a farthest point on each side. They give the least box in eight bytes.
#[derive(Clone, Copy, Debug)]
pub(crate) struct Extremes {
    west: u16,
    south: u16,
    east: u16,
    north: u16,
}

fn is_farther(way: Way, p: Point, q: Point) -> bool
    ensures { IsTrue result ↔ IsFarther way p q }
{
    match way {
        Way::West => p.x < q.x,
        Way::South => p.y < q.y,
        Way::East => q.x < p.x,
        Way::North => q.y < p.y,
    }
}

// The index of the first of the points that are farthest in this direction.
fn farthest(way: Way, points: &[Point]) -> u16
    requires some { 0 < length points.now }
    requires few { length points.now ≤ 1000 }
    ensures { IsFarthest way points.now result }
{
    let mut place: usize = 0;
    for i in 0..points.len() {
        if is_farther(way, points[i], points[place]) {
            place = i;
        }
    }
    place as u16
}

impl Extremes {
    pub(crate) fn of(points: &[Point]) -> Extremes
        requires some { 0 < length points.now }
        requires few { length points.now ≤ 1000 }
        ensures { AreExtremes points.now result }
    {
        Extremes {
            west: farthest(Way::West, points),
            south: farthest(Way::South, points),
            east: farthest(Way::East, points),
            north: farthest(Way::North, points),
        }
    }

    // The least box that holds these points.
    pub(crate) fn bounds(self, points: &[Point]) -> Bounds
        requires { AreExtremes points.now self }
        ensures { IsLeastBounds result points.now }
    {
        Bounds {
            x_min: points[self.west as usize].x,
            y_min: points[self.south as usize].y,
            x_max: points[self.east as usize].x,
            y_max: points[self.north as usize].y,
        }
    }
}
