//! Laws of segments, regions and shapes, each proved for the definitions that the contracts cite. Nothing runs here.

ghost use Rattle.cad_shape.specs.Laws.{SegmentsMeetEitherWay, CountedEdgesCross, TurningKeepsRegions, OrderKeepsRegions};
ghost use Rattle.cad_shape.specs.Laws.{CrossingsAddUp, OneRingIsTheRegion, EdgesAreTakenIn, OddlyManyRingsHold, HolesAreLeftOut};
ghost use Rattle.cad_shape.specs.Laws.{OneFaultAlone, CornersMakeTheRing, OneRegionFaultAlone, RingsMakeTheRegion, OneLeastBox, MeetingIsSymmetric, CornersLieInside};
ghost use Rattle.cad_shape.specs.Laws.{BoundsHoldTheShape, BoundsOverlap, PlainRingsAreRings, WithinMeets, TestsTell};

/// Whether segments meet does not depend on which is named first, nor on the end from which each is named.
pub fn segments_meet_either_way()
    ensures { SegmentsMeetEitherWay }
{}

/// An edge counts for a point if and only if it crosses the point's height right of it.
pub fn counted_edges_cross()
    ensures { CountedEdgesCross }
{}

/// A region stays the same if one of its rings begins with another of its corners.
pub fn turning_keeps_regions()
    ensures { TurningKeepsRegions }
{}

/// A region stays the same if the corners of one of its rings are listed in the opposite order.
pub fn order_keeps_regions()
    ensures { OrderKeepsRegions }
{}

/// The number of edges of all rings that cross a point's height is the sum of those of each ring.
pub fn crossings_add_up()
    ensures { CrossingsAddUp }
{}

/// A region without holes is the region of its ring.
pub fn one_ring_is_the_region()
    ensures { OneRingIsTheRegion }
{}

/// A point on an edge of any ring, including a hole, lies in the region.
pub fn edges_are_taken_in()
    ensures { EdgesAreTakenIn }
{}

/// A point on no edge lies in a region if and only if an odd number of the rings have it in their regions.
pub fn oddly_many_rings_hold()
    ensures { OddlyManyRingsHold }
{}

/// A point inside the outer ring and one hole, and in no other hole, does not lie in the region.
pub fn holes_are_left_out()
    ensures { HolesAreLeftOut }
{}

/// Corners that pass the plain test are a ring, so a ring that is written out in code is made without a fault.
pub fn plain_rings_are_rings()
    ensures { PlainRingsAreRings }
{}

/// A list of corners has at most one fault, and with a fault it is no ring.
pub fn one_fault_alone()
    ensures { OneFaultAlone }
{}

/// Two rings of one list of corners are one value.
pub fn corners_make_the_ring()
    ensures { CornersMakeTheRing }
{}

/// A list of rings has at most one fault, and with a fault it is no region.
pub fn one_region_fault_alone()
    ensures { OneRegionFaultAlone }
{}

/// Two regions of one list of rings are one value.
pub fn rings_make_the_region()
    ensures { RingsMakeTheRegion }
{}

/// Corners have one least box.
pub fn one_least_box()
    ensures { OneLeastBox }
{}

/// Whether shapes meet does not depend on which is named first.
pub fn meeting_is_symmetric()
    ensures { MeetingIsSymmetric }
{}

/// The corners of a shape lie in it.
pub fn corners_lie_inside()
    ensures { CornersLieInside }
{}

/// A point in a shape lies in its bounds.
pub fn bounds_hold_the_shape()
    ensures { BoundsHoldTheShape }
{}

/// Shapes that meet have bounds that overlap.
pub fn bounds_overlap()
    ensures { BoundsOverlap }
{}

/// A shape within another meets it.
pub fn within_meets()
    ensures { WithinMeets }
{}

/// The tests of shapes, by signs of whole numbers, are true if and only if their relations hold.
pub fn tests_tell()
    ensures { TestsTell }
{}
