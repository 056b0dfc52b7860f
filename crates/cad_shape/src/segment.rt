//! Segments between two points.

ghost use Rattle.std.specs.Prelude.{◌≡◌, ◌↔◌, IsTrue, ◌*ℤ◌};
ghost use Rattle.cad_shape.specs.Coordinates.{IsDifference, IsProduct};
ghost use Rattle.cad_shape.specs.Frames.{IsHeld};
ghost use Rattle.cad_shape.specs.Segments.{Meet, Straddle, AllBelow, Apart, IsOutOf, turn};
ghost use Rattle.cad_shape.specs.declared.point.Point.{Point as Place};

use crate::{Bounds, Point};

pub(crate) fn product(a: i64, b: i64) -> i128
    requires { IsDifference a × IsDifference b }
    ensures value { result ≡ a *ℤ b }
    ensures small { IsProduct result }
{
    i128::from(a) * i128::from(b)
}

// Above 0 if `r` lies left of the line from `p` to `q`, below 0 if on its right.
pub(crate) fn turn_at(p: Point, q: Point, r: Point) -> i128
    ensures { result ≡ turn p q r }
{
    product(q.x - p.x, r.y - p.y) - product(q.y - p.y, r.x - p.x)
}

fn on_both_sides(f: i128, g: i128) -> bool
    ensures { IsTrue result ↔ Straddle f g }
{
    (f <= 0 && 0 <= g) || (g <= 0 && 0 <= f)
}

// Whether the line through `p` and `q` has no side on which both `r` and `s` lie.
fn straddle(p: Point, q: Point, r: Point, s: Point) -> bool
    ensures { IsTrue result ↔ Straddle (turn p q r) (turn p q s) }
{
    on_both_sides(turn_at(p, q, r), turn_at(p, q, s))
}

fn all_below(a: i64, b: i64, c: i64, d: i64) -> bool
    ensures { IsTrue result ↔ AllBelow a b c d }
{
    a < c && a < d && b < c && b < d
}

fn apart(p: i64, q: i64, r: i64, s: i64) -> bool
    ensures { IsTrue result ↔ Apart p q r s }
{
    all_below(p, q, r, s) || all_below(r, s, p, q)
}

/// Whether the segment from `p` to `q` and the one from `r` to `s` share a point.
pub fn segments_meet(p: Point, q: Point, r: Point, s: Point) -> bool
    ensures { IsTrue result ↔ Meet p q r s }
{
    if apart(p.x, q.x, r.x, s.x) || apart(p.y, q.y, r.y, s.y) {
        return false;
    }
    straddle(p, q, r, s) && straddle(r, s, p, q)
}

fn out_of(low: i64, high: i64, a: i64, b: i64) -> bool
    ensures { IsTrue result ↔ IsOutOf low high a b }
{
    (a < low && b < low) || (high < a && high < b)
}

// Whether the segment from `r` to `s` lies wholly on one side of the box, so that no segment inside the box meets it.
pub(crate) fn is_beside(bounds: Bounds, r: Point, s: Point) -> bool
    ensures { IsTrue result → (p q : Place) → IsHeld bounds p → IsHeld bounds q → ¬ (Meet p q r s) }
{
    out_of(bounds.x_min, bounds.x_max, r.x, s.x) || out_of(bounds.y_min, bounds.y_max, r.y, s.y)
}

// The same as `segments_meet` for a segment from `p` to `q` inside the box.
pub(crate) fn meets_in_box(bounds: Bounds, p: Point, q: Point, r: Point, s: Point) -> bool
    requires from { IsHeld bounds p }
    requires to { IsHeld bounds q }
    ensures { IsTrue result ↔ Meet p q r s }
{
    !is_beside(bounds, r, s) && segments_meet(p, q, r, s)
}
