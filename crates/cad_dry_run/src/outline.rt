//! What is wrong with the shape of a parcel.

ghost use Rattle.std.specs.Prelude.{◌≡◌, ◌∷◌, codes, IfErr, IfOk, IfSome, MatchResult};
ghost use Rattle.serde_json.specs.View.{items_view, members_view, view};
ghost use Rattle.cad_commands.specs.Members.{member_in};
ghost use Rattle.cad_shape.specs.RegionRings.{IsRegionFault};
ghost use Rattle.cad_commands.specs.Values.{AreHolesOf, ArePointsOf, AreRingsOf, IsRingOf, MayHaveHoles};
ghost use Rattle.cad_dry_run.specs.inner.Stops.{StopsCorners, StopsHoles, StopsMembers, StopsRing};

use crate::cause::{MemberCause, RingCause, ValueFault};
use crate::member_name::MemberName;
use crate::members::{Members, find_member};
use crate::stop::{HolesStop, MemberStop, RingStop};
use crate::values::point;
use cad_shape::{Point, Region, RegionFault, Ring};
use serde_json::Value;
use std::alloc::{AllocError, Global};
use std::rc::Rc;

/// The points of a list of points.
fn points(alloc: Global, list: &[Value]) -> Result<Vec<Point>, RingStop>
    ensures { MatchResult result
        (λ points. ArePointsOf (items_view list.now) points.items)
        (StopsCorners (items_view list.now)) }
{
    let mut points = Vec::new(alloc);
    for (i, corner) in list.iter().enumerate() {
        match point(corner) {
            Ok(point) => points.push(point)?,
            Err(fault) => return Err(RingStop::Cause(RingCause::Corner(i, fault))),
        }
    }
    Ok(points)
}

/// The ring of a list of corners.
fn ring(alloc: Global, value: &Value) -> Result<Ring, RingStop>
    ensures { MatchResult result (IsRingOf (view value.now)) (StopsRing (view value.now)) }
{
    let Some(list) = value.as_array() else {
        return Err(RingStop::Cause(RingCause::NotAList));
    };
    let corners = match points(alloc, list) {
        Ok(corners) => corners,
        Err(stop) => return Err(stop),
    };
    match Ring::new(corners) {
        Ok(ring) => Ok(ring),
        Err((fault, _)) => Err(RingStop::Cause(RingCause::Fault(fault))),
    }
}

/// The rings of a list of holes.
fn rings(alloc: Global, list: &[Value]) -> Result<Vec<Ring>, HolesStop>
    ensures { MatchResult result
        (λ rings. AreRingsOf (items_view list.now) rings.items)
        (StopsHoles (items_view list.now)) }
{
    let mut rings = Vec::new(alloc);
    for (k, hole) in list.iter().enumerate() {
        match ring(alloc, hole) {
            Ok(ring) => rings.push(ring)?,
            Err(RingStop::Cause(cause)) => return Err(HolesStop::Cause(k, cause)),
            Err(RingStop::Memory) => return Err(HolesStop::Memory),
        }
    }
    Ok(rings)
}

/// The rings of the value of `holes`.
fn holes_of(alloc: Global, members: &Members, value: &Value) -> Result<Vec<Ring>, MemberStop>
    ensures { member_in (codes "holes") (members_view members.now.entries) ≡ Some (view value.now) →
        MatchResult result
        (λ rings. AreHolesOf (view value.now) rings.items)
        (StopsMembers (members_view members.now.entries)) }
{
    let Some(list) = value.as_array() else {
        return Err(MemberStop::Cause(MemberCause::Wrong(MemberName::Holes, ValueFault::NotAList)));
    };
    match rings(alloc, list) {
        Ok(rings) => Ok(rings),
        Err(HolesStop::Cause(k, cause)) => Err(MemberStop::Cause(MemberCause::Hole(k, cause))),
        Err(HolesStop::Memory) => Err(MemberStop::Memory),
    }
}

/// The rings of `holes`, if there are any.
fn holes(alloc: Global, members: &Members) -> Result<Vec<Ring>, MemberStop>
    ensures { MatchResult result
        (λ rings. MayHaveHoles (member_in (codes "holes") (members_view members.now.entries)) rings.items)
        (StopsMembers (members_view members.now.entries)) }
{
    match find_member(members, "holes") {
        Some(value) => holes_of(alloc, members, value),
        None => Ok(Vec::new(alloc)),
    }
}

/// Checks that there are no holes, since there is no shape.
fn check_no_holes(members: &Members) -> Result<(), MemberStop>
    ensures { member_in (codes "shape") (members_view members.now.entries) ≡ None →
        IfErr result (StopsMembers (members_view members.now.entries)) }
{
    match find_member(members, "holes") {
        Some(_) => Err(MemberStop::Cause(MemberCause::HolesWithoutShape)),
        None => Ok(()),
    }
}

/// The exterior boundary that `shape` gives.
fn outline(alloc: Global, members: &Members, value: &Value) -> Result<Ring, MemberStop>
    ensures { member_in (codes "shape") (members_view members.now.entries) ≡ Some (view value.now) →
        MatchResult result (IsRingOf (view value.now)) (StopsMembers (members_view members.now.entries)) }
{
    match ring(alloc, value) {
        Ok(ring) => Ok(ring),
        Err(RingStop::Cause(cause)) => Err(MemberStop::Cause(MemberCause::Outline(cause))),
        Err(RingStop::Memory) => Err(MemberStop::Memory),
    }
}

/// The fault of the region of these rings, if they have one.
fn region_fault(
    alloc: Global,
    outer: Ring,
    holes: Vec<Ring>,
) -> Result<Option<RegionFault>, AllocError>
    ensures { IfOk result (λ found. IfSome found (IsRegionFault (outer ∷ holes.items))) }
{
    let mut rings = holes;
    rings.insert(0, outer)?;
    let rings = Rc::new(alloc, rings)?;
    match Region::new(rings) {
        Ok(_) => Ok(None),
        Err((fault, _)) => Ok(Some(fault)),
    }
}

/// Checks what `shape` and `holes` say together.
pub(crate) fn check_shape(alloc: Global, members: &Members) -> Result<(), MemberStop>
    ensures { IfErr result (StopsMembers (members_view members.now.entries)) }
{
    let Some(value) = find_member(members, "shape") else {
        return check_no_holes(members);
    };
    let outer = outline(alloc, members, value)?;
    let holes = holes(alloc, members)?;
    let fault = region_fault(alloc, outer, holes)?;
    match fault {
        Some(fault) => Err(MemberStop::Cause(MemberCause::Region(fault))),
        None => Ok(()),
    }
}
