//! Boxes with sides along the axes.

ghost use Rattle.std.specs.Prelude.{◌↔◌, IsTrue};
ghost use Rattle.cad_shape.specs.Boxes.{IsExtent, IsLower, IsUpper};

use crate::Point;
use crate::point::is_coordinate;

/// A closed box, in millimetres. Its sides may have no length.
#[derive(Clone, Copy, Debug, PartialEq, Eq)]
pub struct Bounds {
    /// The least x, in millimetres.
    pub x_min: i64,
    /// The least y.
    pub y_min: i64,
    /// The greatest x.
    pub x_max: i64,
    /// The greatest y.
    pub y_max: i64,
    /// Both x are coordinates, and in order.
    pub ghost width: { IsExtent x_min x_max },
    /// Both y are coordinates, and in order.
    pub ghost height: { IsExtent y_min y_max },
}

fn is_extent(low: i64, high: i64) -> bool
    ensures { IsTrue result ↔ IsExtent low high }
{
    is_coordinate(low) && is_coordinate(high) && low <= high
}

// The lesser of two coordinates.
fn lower(a: i64, b: i64) -> i64
    ensures { IsLower a b result }
{
    if a < b { a } else { b }
}

// The greater of two coordinates.
fn upper(a: i64, b: i64) -> i64
    ensures { IsUpper a b result }
{
    if a < b { b } else { a }
}

impl Bounds {
    ghost use Rattle.std.specs.Prelude.{◌≡◌, ◌∷◌, ◌<◌, [], MatchOption, length};
    ghost use Rattle.cad_shape.specs.Frames.{IsWithinWidth, IsWithinHeight, IsHeld, CoversWidth, CoversHeight, Covers, ShareWidth, ShareHeight, Overlap};
    ghost use Rattle.cad_shape.specs.Frames.{IsLeastBounds, IsStretched, frame_corners};

    /// The box between these edges, if its corners are points and the edges are in order.
    pub fn new(x_min: i64, y_min: i64, x_max: i64, y_max: i64) -> Option<Bounds>
        ensures { MatchOption result (¬ (IsExtent x_min x_max × IsExtent y_min y_max))
            (λ bounds. (bounds.x_min ≡ x_min) × (bounds.y_min ≡ y_min) × (bounds.x_max ≡ x_max) × (bounds.y_max ≡ y_max)) }
    {
        if is_extent(x_min, x_max) && is_extent(y_min, y_max) {
            Some(Bounds {
                x_min,
                y_min,
                x_max,
                y_max,
            })
        } else {
            None
        }
    }

    fn within_width(self, point: Point) -> bool
        ensures { IsTrue result ↔ IsWithinWidth self point }
    {
        self.x_min <= point.x && point.x <= self.x_max
    }

    fn within_height(self, point: Point) -> bool
        ensures { IsTrue result ↔ IsWithinHeight self point }
    {
        self.y_min <= point.y && point.y <= self.y_max
    }

    /// Whether the point lies in the closed box.
    pub fn holds(self, point: Point) -> bool
        ensures { IsTrue result ↔ IsHeld self point }
    {
        self.within_width(point) && self.within_height(point)
    }

    fn covers_width(self, other: Bounds) -> bool
        ensures { IsTrue result ↔ CoversWidth self other }
    {
        self.x_min <= other.x_min && other.x_max <= self.x_max
    }

    fn covers_height(self, other: Bounds) -> bool
        ensures { IsTrue result ↔ CoversHeight self other }
    {
        self.y_min <= other.y_min && other.y_max <= self.y_max
    }

    /// Whether all of the other box lies in this one.
    pub fn covers(self, other: Bounds) -> bool
        ensures { IsTrue result ↔ Covers self other }
    {
        self.covers_width(other) && self.covers_height(other)
    }

    fn shares_width(self, other: Bounds) -> bool
        ensures { IsTrue result ↔ ShareWidth self other }
    {
        self.x_min <= other.x_max && other.x_min <= self.x_max
    }

    fn shares_height(self, other: Bounds) -> bool
        ensures { IsTrue result ↔ ShareHeight self other }
    {
        self.y_min <= other.y_max && other.y_min <= self.y_max
    }

    /// Whether the two boxes share a point.
    pub fn overlaps(self, other: Bounds) -> bool
        ensures { IsTrue result ↔ Overlap self other }
    {
        self.shares_width(other) && self.shares_height(other)
    }

    /// The corners, counterclockwise from the one with the least coordinates; some are equal if the box is flat.
    pub fn corners(self) -> [Point; 4]
        ensures { result ≡ frame_corners self }
    {
        let (left, right) = (self.x_min, self.x_max);
        let (low, high) = (self.y_min, self.y_max);
        [
            Point { x: left, y: low },
            Point { x: right, y: low },
            Point { x: right, y: high },
            Point { x: left, y: high },
        ]
    }

    /// The box of this point alone.
    pub fn at(point: Point) -> Bounds
        ensures { IsLeastBounds result (point ∷ []) }
    {
        Bounds {
            x_min: point.x,
            y_min: point.y,
            x_max: point.x,
            y_max: point.y,
        }
    }

    // The least box that holds this one and the point.
    fn stretched(self, point: Point) -> Bounds
        ensures { IsStretched self point result }
    {
        Bounds {
            x_min: lower(self.x_min, point.x),
            y_min: lower(self.y_min, point.y),
            x_max: upper(self.x_max, point.x),
            y_max: upper(self.y_max, point.y),
        }
    }

    // The box of the segment between these ends.
    pub(crate) fn of_segment(p: Point, q: Point) -> Bounds
        ensures from { IsHeld result p }
        ensures to { IsHeld result q }
    {
        Bounds::at(p).stretched(q)
    }
}
