//! Regions with holes, by their rings.

ghost use Rattle.std.specs.Prelude.{◌≡◌, ◌↔◌, ◌<◌, ◌≤◌, IsTrue, length, MatchOption};
ghost use Rattle.cad_shape.specs.Polygons.{rings_corners, AreFew, ReachesOut, NoneOutside, IsFirstOutside};
ghost use Rattle.cad_shape.specs.Rings.{corners_of};

use crate::location::in_ring;
use crate::{Bounds, Ring};
use std::alloc::{AllocError, Global};
use std::marker::Model;
use std::rc::Rc;
use thiserror::Error;

// The list of rings, which copies share. Two regions with the same list of rings are one value.
#[derive(Debug, Drop)]
struct Rings {
    list: Rc<Vec<Ring>>,
}

impl Model for Rings {
    ghost use Rattle.std.specs.Prelude.{List};
    ghost use Rattle.cad_shape.specs.declared.ring.Ring.{Ring};

    ghost Value = { List Ring };

    ghost view = { λ rings. rings.list.value.items };
}

/// A part of the plane inside an exterior boundary, which is the first of its rings, and outside all others, which are its holes. Edges are
/// included, those of holes too. Holes lie in the region of the exterior boundary; they may touch it and each other.
#[derive(Debug, Drop)]
pub struct Region {
    rings: Rings,
    /// There is an exterior boundary.
    pub ghost some: { 0 < length rings },
    /// There are at most 99 holes.
    pub ghost not_too_many_rings: { length rings ≤ 100 },
    /// The corners of all rings are counted together.
    pub ghost not_too_many_corners: { length (rings_corners rings) ≤ 1000 },
    /// No corner of a hole lies outside of the exterior boundary.
    pub ghost inside: { NoneOutside rings },
}

/// Why a list of rings is no region.
#[derive(Clone, Copy, Debug, PartialEq, Eq, Error)]
pub enum RegionFault {
    /// No exterior boundary.
    #[error("a region has a ring")]
    NoRing,
    /// More than 100 rings, or more than 1,000 corners together.
    #[error("a region has at most 100 rings, and at most 1,000 corners together")]
    TooMany,
    /// The first ring with a corner that does not lie in the exterior boundary, which is ring 0.
    #[error("ring {ring} does not lie in the first one")]
    Outside { ring: u32 },
}

impl Rings {
    ghost use Rattle.std.specs.Prelude.{IfOk};

    fn new(alloc: Global, list: Vec<Ring>) -> Result<Rings, AllocError>
        ensures { IfOk result (λ rings. rings ≡ list.items) }
    {
        let list = Rc::new(alloc, list)?;
        Ok(Rings { list })
    }

    fn as_slice(&self) -> &[Ring]
        ensures { result.now ≡ self.now }
    {
        self.list.as_ref().as_slice()
    }

    fn copy(&self) -> Result<Rings, AllocError>
        ensures { IfOk result (λ copy. copy ≡ self.now) }
    {
        let list = self.list.clone()?;
        Ok(Rings { list })
    }
}

impl Region {
    ghost use Rattle.std.specs.Prelude.{[], ◌∷◌, IfOk, MatchResult};
    ghost use Rattle.cad_shape.specs.Frames.{IsLeastBounds};
    ghost use Rattle.cad_shape.specs.RegionRings.{rings_of, outer_corners, region_corners, IsRegionFault};

    /// The region of these rings, the exterior boundary first, or its first fault and the rings again. It allocates no memory.
    pub fn new(rings: Rc<Vec<Ring>>) -> Result<Region, (RegionFault, Rc<Vec<Ring>>)>
        ensures { MatchResult result
            (λ region. rings_of region ≡ rings.value.items)
            (λ refusal. IsRegionFault rings.value.items refusal.0 × (refusal.1 ≡ rings)) }
    {
        match RegionFault::first(rings.as_ref().as_slice()) {
            Some(fault) => Err((fault, rings)),
            None => Ok(Region {
                rings: Rings { list: rings },
            }),
        }
    }

    /// The region of one ring, without holes.
    pub fn of(alloc: Global, ring: Ring) -> Result<Region, AllocError>
        ensures { IfOk result (λ region. rings_of region ≡ ring ∷ []) }
    {
        let mut list = Vec::with_capacity(alloc, 1)?;
        list.push(ring)?;
        let rings = Rings::new(alloc, list)?;
        Ok(Region { rings })
    }

    /// The rings in order, the exterior boundary first.
    pub fn rings(&self) -> &[Ring]
        ensures { result.now ≡ rings_of self.now }
    {
        self.rings.as_slice()
    }

    // The exterior boundary.
    fn outer(&self) -> &Ring
        ensures { corners_of result.now ≡ outer_corners self.now }
    {
        &self.rings()[0]
    }

    /// The least box that holds the exterior boundary, and with it all rings.
    pub fn bounds(&self) -> Bounds
        ensures outer { IsLeastBounds result (outer_corners self.now) }
        ensures all { IsLeastBounds result (region_corners self.now) }
    {
        self.outer().bounds()
    }

    /// A second value for the same region. It shares the rings, and none is copied. An error means that too many share them.
    pub fn copy(&self) -> Result<Region, AllocError>
        ensures { IfOk result (λ copy. copy ≡ self.now) }
    {
        let rings = self.rings.copy()?;
        Ok(Region { rings })
    }
}

// How many corners the rings have together.
fn corners_together(rings: &[Ring]) -> usize
    requires { length rings.now ≤ 100 }
    ensures { result ≡ length (rings_corners rings.now) }
{
    let mut count = 0;
    for ring in rings {
        count += ring.corners().len();
    }
    count
}

fn are_few(rings: &[Ring]) -> bool
    ensures { IsTrue result ↔ AreFew rings.now }
{
    rings.len() <= 100 && corners_together(rings) <= 1000
}

// Whether some corner of the ring does not lie in the region of the outer one.
fn reaches_out(outer: &Ring, ring: &Ring) -> bool
    ensures { IsTrue result ↔ ReachesOut (corners_of outer.now) (corners_of ring.now) }
{
    for corner in ring.corners() {
        if !in_ring(*corner, outer) {
            return true;
        }
    }
    false
}

// The first ring that does not lie in the region of the first of all, if there is one.
fn first_outside(rings: &[Ring]) -> Option<usize>
    requires { 0 < length rings.now }
    ensures { MatchOption result (NoneOutside rings.now) (λ i. IsFirstOutside rings.now i) }
{
    for i in 1..rings.len() {
        if reaches_out(&rings[0], &rings[i]) {
            return Some(i);
        }
    }
    None
}

impl RegionFault {
    ghost use Rattle.cad_shape.specs.Polygons.{IsRegion};
    ghost use Rattle.cad_shape.specs.RegionRings.{IsRegionFault, region_fault_row};

    // The first fault of these rings, if they have one.
    fn first(rings: &[Ring]) -> Option<RegionFault>
        ensures { MatchOption result (IsRegion rings.now) (λ fault. IsRegionFault rings.now fault) }
    {
        if rings.is_empty() {
            return Some(RegionFault::NoRing);
        }
        if !are_few(rings) {
            return Some(RegionFault::TooMany);
        }
        match first_outside(rings) {
            Some(ring) => Some(RegionFault::Outside { ring: ring as u32 }),
            None => None,
        }
    }

    // The number and the name.
    fn row(&self) -> (u8, &'static str)
        ensures number { result.0 ≡ (region_fault_row self.now).0 }
        ensures name { result.1.now ≡ (region_fault_row self.now).1 }
    {
        match self {
            RegionFault::NoRing => (1, "NoRing"),
            RegionFault::TooMany => (2, "TooMany"),
            RegionFault::Outside { .. } => (3, "Outside"),
        }
    }

    /// The fault's number, from 1.
    pub fn number(&self) -> u8
        ensures { result ≡ (region_fault_row self.now).0 }
    {
        self.row().0
    }

    /// The fault's name, for messages.
    pub fn name(&self) -> &'static str
        ensures { result.now ≡ (region_fault_row self.now).1 }
    {
        self.row().1
    }
}
