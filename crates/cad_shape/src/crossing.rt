//! The first two edges of a ring that cross.

ghost use Rattle.std.specs.Prelude.{◌≡◌, ◌↔◌, ◌<◌, ◌≤◌, IsTrue, length, MatchOption};
ghost use Rattle.cad_shape.specs.Segments.{turn};
ghost use Rattle.cad_shape.specs.Frames.{IsHeld};
ghost use Rattle.cad_shape.specs.Edges.{edges_of};
ghost use Rattle.cad_shape.specs.Crossings.{edge_at, ShareMore, along, pair_of, Cross, IsCrossing, NoneCross, IsFirstCrossing};

use crate::segment::{meets_in_box, product, turn_at};
use crate::{Bounds, Point};

// How two edges of a ring are related.
#[derive(Clone, Copy, Debug, PartialEq, Eq)]
enum Pair {
    // One edge.
    Same,
    // The second begins where the first ends.
    Next,
    // The first begins where the second, the last of all, ends.
    Round,
    Far,
}

fn pair_at(n: usize, i: usize, j: usize) -> Pair
    requires within { j < n }
    requires ordered { i ≤ j }
    ensures { result ≡ pair_of n i j }
{
    if i == j {
        Pair::Same
    } else if i + 1 == j {
        Pair::Next
    } else if i == 0 && j + 1 == n {
        Pair::Round
    } else {
        Pair::Far
    }
}

fn along_at(p: Point, c: Point, s: Point) -> i128
    ensures { result ≡ along p c s }
{
    product(p.x - c.x, s.x - c.x) + product(p.y - c.y, s.y - c.y)
}

// Whether the way from `p` through `c` to `s` turns back on itself.
fn doubles_back(p: Point, c: Point, s: Point) -> bool
    ensures { IsTrue result ↔ ShareMore p c s }
{
    if turn_at(p, c, s) != 0 {
        return false;
    }
    0 < along_at(p, c, s)
}

fn has_no_length(p: Point, q: Point) -> bool
    ensures { IsTrue result ↔ (p.x ≡ q.x) × (p.y ≡ q.y) }
{
    p.x == q.x && p.y == q.y
}

// Whether the edge from `p` to `q`, which lies in the box, and the one from `r` to `s` share more than they may.
fn edges_cross(pair: Pair, bounds: Bounds, p: Point, q: Point, r: Point, s: Point) -> bool
    requires from { IsHeld bounds p }
    requires to { IsHeld bounds q }
    ensures { IsTrue result ↔ Cross pair p q r s }
{
    match pair {
        Pair::Same => has_no_length(p, q),
        Pair::Next => doubles_back(p, q, s),
        Pair::Round => doubles_back(r, s, q),
        Pair::Far => meets_in_box(bounds, p, q, r, s),
    }
}

// The ends of edge `i` of the ring through these corners.
fn edge_ends(corners: &[Point], i: usize) -> (Point, Point)
    requires { i < length corners.now }
    ensures from { result.0 ≡ (edge_at (edges_of corners.now) i).from }
    ensures to { result.1 ≡ (edge_at (edges_of corners.now) i).to }
{
    let next = if i + 1 == corners.len() { 0 } else { i + 1 };
    (corners[i], corners[next])
}

// A box that holds edge `i` of the ring through these corners.
fn edge_bounds(corners: &[Point], i: usize) -> Bounds
    requires { i < length corners.now }
    ensures from { IsHeld result (edge_at (edges_of corners.now) i).from }
    ensures to { IsHeld result (edge_at (edges_of corners.now) i).to }
{
    let (p, q) = edge_ends(corners, i);
    Bounds::of_segment(p, q)
}

fn is_crossing(corners: &[Point], bounds: Bounds, i: usize, j: usize) -> bool
    requires ordered { i ≤ j }
    requires within { j < length corners.now }
    requires from { IsHeld bounds (edge_at (edges_of corners.now) i).from }
    requires to { IsHeld bounds (edge_at (edges_of corners.now) i).to }
    ensures { IsTrue result ↔ IsCrossing (edges_of corners.now) i j }
{
    let pair = pair_at(corners.len(), i, j);
    let (p, q) = edge_ends(corners, i);
    let (r, s) = edge_ends(corners, j);
    edges_cross(pair, bounds, p, q, r, s)
}

// The least pair of edges of the ring through these corners that share more than they may, if there is one.
pub(crate) fn first_crossing(corners: &[Point]) -> Option<(usize, usize)>
    ensures { MatchOption result (NoneCross (edges_of corners.now)) (λ pair. IsFirstCrossing (edges_of corners.now) pair.0 pair.1) }
{
    for i in 0..corners.len() {
        let bounds = edge_bounds(corners, i);
        for j in i..corners.len() {
            if is_crossing(corners, bounds, i, j) {
                return Some((i, j));
            }
        }
    }
    None
}
