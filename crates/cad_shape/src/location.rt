//! Where a point lies relative to a region.

ghost use Rattle.std.specs.Prelude.{◌≡◌, ◌↔◌, IsTrue};
ghost use Rattle.cad_shape.specs.Edges.{edges_of};
ghost use Rattle.cad_shape.specs.Locations.{IsLocation, is_taken_in, is_interior};
ghost use Rattle.cad_shape.specs.Polygons.{rings_edges};
ghost use Rattle.cad_shape.specs.RegionRings.{region_edges};
ghost use Rattle.cad_shape.specs.Regions.{IsInRegion};
ghost use Rattle.cad_shape.specs.Rings.{corners_of};

use crate::region::location_by_corners;
use crate::{Point, Region, Ring};

#[derive(Clone, Copy, Debug, PartialEq, Eq)]
pub(crate) enum Location {
    // On an edge.
    Boundary,
    Interior,
    Exterior,
}

impl Location {
    ghost use Rattle.cad_shape.specs.Locations.{location_of};

    // The location of a point on no edge, by how many edges cross its height right of it.
    pub(crate) fn of_crossings(crossed: usize) -> Location
        ensures { result ≡ location_of crossed }
    {
        if crossed % 2 == 1 {
            Location::Interior
        } else {
            Location::Exterior
        }
    }

    fn is_taken_in(self) -> bool
        ensures { result ≡ is_taken_in self }
    {
        match self {
            Location::Boundary => true,
            Location::Interior => true,
            Location::Exterior => false,
        }
    }

    // Whether it is in the region and on no edge.
    pub(crate) fn is_interior(self) -> bool
        ensures { result ≡ is_interior self }
    {
        match self {
            Location::Boundary => false,
            Location::Interior => true,
            Location::Exterior => false,
        }
    }
}

fn location_by_ring(point: Point, ring: &Ring) -> Location
    ensures { IsLocation point (edges_of (corners_of ring.now)) result }
{
    if !ring.bounds().holds(point) {
        return Location::Exterior;
    }
    location_by_corners(point, ring.corners())
}

fn location_by_rings(point: Point, rings: &[Ring]) -> Location
    ensures { IsLocation point (rings_edges rings.now) result }
{
    let mut odd = false;
    for ring in rings {
        match location_by_ring(point, ring) {
            Location::Boundary => return Location::Boundary,
            Location::Interior => odd = !odd,
            Location::Exterior => {}
        }
    }
    if odd {
        Location::Interior
    } else {
        Location::Exterior
    }
}

pub(crate) fn location_by_region(point: Point, region: &Region) -> Location
    ensures { IsLocation point (region_edges region.now) result }
{
    if !region.bounds().holds(point) {
        return Location::Exterior;
    }
    location_by_rings(point, region.rings())
}

// Whether the point lies in the closed region of the ring.
pub(crate) fn in_ring(point: Point, ring: &Ring) -> bool
    ensures { IsTrue result ↔ IsInRegion point (edges_of (corners_of ring.now)) }
{
    location_by_ring(point, ring).is_taken_in()
}

/// Whether the point lies in the region, including the edges of all its rings.
pub fn in_region(point: Point, region: &Region) -> bool
    ensures { IsTrue result ↔ IsInRegion point (region_edges region.now) }
{
    location_by_region(point, region).is_taken_in()
}
