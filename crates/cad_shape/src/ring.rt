//! Rings of corners.

ghost use Rattle.std.specs.Prelude.{◌≤◌, length};
ghost use Rattle.cad_shape.specs.Edges.{edges_of};
ghost use Rattle.cad_shape.specs.Crossings.{NoneCross};
ghost use Rattle.cad_shape.specs.Outlines.{HasArea};

use crate::area::area_doubled;
use crate::crossing::first_crossing;
use crate::extremes::Extremes;
use crate::{Bounds, Point};
use std::alloc::{AllocError, Global};
use std::marker::Model;
use thiserror::Error;

// The list of points, so that two rings with the same list of corners are one value, and the places where the least box touches it.
#[derive(Debug, Drop)]
struct Corners {
    points: Vec<Point>,
    extremes: Extremes,
}

impl Model for Corners {
    ghost use Rattle.std.specs.Prelude.{List};
    ghost use Rattle.cad_shape.specs.declared.point.Point.{Point};
    ghost use Rattle.cad_shape.specs.inner.Extremes.{AreExtremes};

    ghost Value = { List Point };

    ghost view = { λ corners. corners.points.items };

    ghost invariant = { λ corners. AreExtremes corners.points.items corners.extremes };
}

/// A closed line through 3 to 1,000 corners, the first of which is not repeated at the end. It encloses an area, and no two of its edges
/// share more than the corner of neighbours.
#[derive(Debug, Drop)]
pub struct Ring {
    corners: Corners,
    /// There are at least three corners.
    pub ghost enough: { 3 ≤ length corners },
    /// There are at most 1,000 corners.
    pub ghost not_too_many: { length corners ≤ 1000 },
    /// Its signed area is not zero.
    pub ghost has_area: { HasArea (edges_of corners) },
    /// No two edges share more than the corner of neighbours.
    pub ghost simple: { NoneCross (edges_of corners) },
}

/// Why a list of corners is no ring.
#[derive(Clone, Copy, Debug, PartialEq, Eq, Error)]
pub enum RingFault {
    /// Fewer than 3 corners.
    #[error("a ring has at least 3 corners")]
    TooFew,
    /// More than 1,000 corners.
    #[error("a ring has at most 1,000 corners")]
    TooMany,
    /// The two edges, counted from 0, share more than the corner of neighbours; if it is one edge twice, it has no length.
    #[error("edges {first} and {second} share more than they may")]
    Crosses { first: u32, second: u32 },
    /// Its signed area is zero.
    #[error("the ring holds no area")]
    Flat,
}

impl Corners {
    ghost use Rattle.std.specs.Prelude.{◌≡◌, ◌<◌, ◌≤◌, length, IfOk};
    ghost use Rattle.cad_shape.specs.Frames.{IsLeastBounds};

    fn new(points: Vec<Point>) -> Corners
        requires some { 0 < length points.items }
        requires few { length points.items ≤ 1000 }
        ensures { result ≡ points.items }
    {
        let extremes = Extremes::of(points.as_slice());
        Corners { points, extremes }
    }

    fn as_slice(&self) -> &[Point]
        ensures { result.now ≡ self.now }
    {
        self.points.as_slice()
    }

    fn bounds(&self) -> Bounds
        ensures { IsLeastBounds result self.now }
    {
        self.extremes.bounds(self.points.as_slice())
    }

    fn copy(&self, alloc: Global) -> Result<Corners, AllocError>
        ensures { IfOk result (λ copy. copy ≡ self.now) }
    {
        let points = Vec::from_slice(alloc, self.points.as_slice())?;
        let extremes = self.extremes;
        Ok(Corners { points, extremes })
    }
}

impl Ring {
    ghost use Rattle.std.specs.Prelude.{◌≡◌, IfOk, MatchResult};
    ghost use Rattle.cad_shape.specs.Frames.{IsLeastBounds};
    ghost use Rattle.cad_shape.specs.Rings.{corners_of, IsRingFault};

    /// The ring through these corners, or its first fault and the corners again.
    pub fn new(corners: Vec<Point>) -> Result<Ring, (RingFault, Vec<Point>)>
        ensures { MatchResult result
            (λ ring. corners_of ring ≡ corners.items)
            (λ refusal. IsRingFault corners.items refusal.0 × (refusal.1 ≡ corners)) }
    {
        if let Some(fault) = RingFault::first(corners.as_slice()) {
            return Err((fault, corners));
        }
        let corners = Corners::new(corners);
        Ok(Ring { corners })
    }

    /// The corners in order, the first not repeated.
    pub fn corners(&self) -> &[Point]
        ensures { result.now ≡ corners_of self.now }
    {
        self.corners.as_slice()
    }

    /// The least box that holds all corners.
    pub fn bounds(&self) -> Bounds
        ensures { IsLeastBounds result (corners_of self.now) }
    {
        self.corners.bounds()
    }

    /// A copy of the ring.
    pub fn copy(&self, alloc: Global) -> Result<Ring, AllocError>
        ensures { IfOk result (λ copy. copy ≡ self.now) }
    {
        let corners = self.corners.copy(alloc)?;
        Ok(Ring { corners })
    }
}

impl RingFault {
    ghost use Rattle.std.specs.Prelude.{◌≡◌, MatchOption};
    ghost use Rattle.cad_shape.specs.Outlines.{IsRing};
    ghost use Rattle.cad_shape.specs.Rings.{IsRingFault, fault_row};

    // The first fault of these corners, if they have one.
    fn first(corners: &[Point]) -> Option<RingFault>
        ensures { MatchOption result (IsRing corners.now) (λ fault. IsRingFault corners.now fault) }
    {
        if corners.len() < 3 {
            return Some(RingFault::TooFew);
        }
        if corners.len() > 1000 {
            return Some(RingFault::TooMany);
        }
        if area_doubled(corners) == 0 {
            return Some(RingFault::Flat);
        }
        match first_crossing(corners) {
            Some((first, second)) => Some(RingFault::Crosses {
                first: first as u32,
                second: second as u32,
            }),
            None => None,
        }
    }

    // The number and the name.
    fn row(&self) -> (u8, &'static str)
        ensures number { result.0 ≡ (fault_row self.now).0 }
        ensures name { result.1.now ≡ (fault_row self.now).1 }
    {
        match self {
            RingFault::TooFew => (1, "TooFew"),
            RingFault::TooMany => (2, "TooMany"),
            RingFault::Crosses { .. } => (3, "Crosses"),
            RingFault::Flat => (4, "Flat"),
        }
    }

    /// The fault's number, from 1.
    pub fn number(&self) -> u8
        ensures { result ≡ (fault_row self.now).0 }
    {
        self.row().0
    }

    /// The fault's name, for messages.
    pub fn name(&self) -> &'static str
        ensures { result.now ≡ (fault_row self.now).1 }
    {
        self.row().1
    }
}
