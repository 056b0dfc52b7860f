//! Points of the plane.

ghost use Rattle.std.specs.Prelude.{◌≡◌, ◌↔◌, IsTrue, MatchOption};
ghost use Rattle.cad_shape.specs.Coordinates.{IsCoordinate};

/// A point, in millimetres east and north of the origin.
#[derive(Clone, Copy, Debug, PartialEq, Eq)]
pub struct Point {
    /// To the right, in millimetres.
    pub x: i64,
    /// Upward, in millimetres.
    pub y: i64,
    /// It is a coordinate of the plane.
    pub ghost x_in_range: { IsCoordinate x },
    /// It is a coordinate of the plane.
    pub ghost y_in_range: { IsCoordinate y },
}

/// The farthest coordinate, in millimetres: 100,000 kilometres from the origin. Products of two differences of coordinates
/// fit 128 bits with room to spare.
pub const FARTHEST: i64 = 100_000_000_000;

pub(crate) fn is_coordinate(n: i64) -> bool
    ensures { IsTrue result ↔ IsCoordinate n }
{
    -FARTHEST <= n && n <= FARTHEST
}

impl Point {
    /// The point there, if both coordinates lie within 100,000 kilometres of the origin.
    pub fn new(x: i64, y: i64) -> Option<Point>
        ensures { MatchOption result (¬ (IsCoordinate x × IsCoordinate y)) (λ point. (point.x ≡ x) × (point.y ≡ y)) }
    {
        if is_coordinate(x) && is_coordinate(y) {
            Some(Point { x, y })
        } else {
            None
        }
    }
}
