//! Literals of several parts: intervals, points, boxes and regions.

ghost use Rattle.std.specs.Prelude.{◌≡◌, ◌↔◌, IsTrue, List, [], ◌∷◌, Some, IfOk, MatchOption, option_map, slice_get};
ghost use Rattle.cad_day.specs.Days.{number_of};
ghost use Rattle.cad_schema.specs.Schema.{schema_of};
ghost use Rattle.cad_shape.specs.Coordinates.{IsCoordinate};
ghost use Rattle.cad_shape.specs.Outlines.{IsRing};
ghost use Rattle.cad_shape.specs.Polygons.{IsRegion};
ghost use Rattle.cad_shape.specs.RegionRings.{rings_of as region_rings};
ghost use Rattle.cad_shape.specs.Rings.{corners_of};
ghost use Rattle.cad_shape.specs.declared.point.Point.{Point};
ghost use Rattle.cad_shape.specs.declared.ring.Ring.{Ring};
ghost use Rattle.cql_tree.specs.Syntax.{leaf, node, part, parts_of, none, place_of, name_leaf, bound_leaf, interval_op, point_op, bbox_op, polygon_op};
ghost use Rattle.cql_tree.specs.Views.{bound_of, numbers_of, rings_of};
ghost use Rattle.cql_types.specs.Literals.{coordinates_of, closed, outline_of};
ghost use Rattle.cad_day.specs.Intervals.{are_turned as is_turned};
ghost use Rattle.cql_types.specs.Contract.{Judges};
ghost use Rattle.cql_types.specs.inner.Reading.{ReadsEnd, ReadsNumber, ReadsPosition, ReadsLine, ReadsLines, IsRegionAlong, positions_of, lines_of, outlines_of, property_end, end_day, IsFrame};

use crate::collect::wrong_kind;
use crate::fault::{Misuse, TypeFault};
use crate::filter::{DayTerm, EndTerm, ShapeTerm, SpanTerm};
use crate::judged::{Judged, Node};
use crate::leaf::at;
use crate::number::whole_number;
use cad_day::Day;
use cad_schema::{Collection, PropertyKind, find_property};
use cad_shape::{Bounds, Point, Region, Ring, Shape};
use cql_tree::{Bound, Corner, Number};
use std::alloc::{AllocError, Global};
use std::rc::Rc;

/// A point of a literal, before it is known to be one of the plane.
#[derive(Drop)]
pub struct Position {
    /// The first number.
    pub x: i64,
    /// The second number.
    pub y: i64,
}

/// `INTERVAL`
pub(crate) fn interval(
    place: usize,
    from: &Bound,
    to: &Bound,
    collection: Collection,
) -> Result<Judged, TypeFault>
    ensures { Judges (schema_of collection) (node (interval_op place) (part (bound_of from.now) (part (bound_of to.now) none))) result }
{
    let first = read_end(from, collection)?;
    let last = read_end(to, collection)?;
    let Some(first) = first else {
        return Err(wrong_kind(bound_place(from)));
    };
    let Some(last) = last else {
        return Err(wrong_kind(bound_place(to)));
    };
    if are_turned(&first, &last) {
        return Err(at(place, Misuse::EndsTurned));
    }
    let node = Node::Span(SpanTerm::Interval {
        from: first,
        to: last,
    });
    Ok(Judged { place, node })
}

fn bound_place(bound: &Bound) -> usize
    ensures { result ≡ place_of (bound_of bound.now) }
{
    match bound {
        Bound::Text { place, .. } => *place,
        Bound::Name { place, .. } => *place,
    }
}

// An end of an interval, or nothing if it is a name of another kind than Day.
fn read_end(bound: &Bound, collection: Collection) -> Result<Option<EndTerm>, TypeFault>
    ensures { ReadsEnd (schema_of collection) (bound_of bound.now) result }
{
    match bound {
        Bound::Text { place, content } => read_end_text(*place, content, collection),
        Bound::Name { place, name } => read_end_name(*place, name, collection),
    }
}

fn read_end_text(
    place: usize,
    content: &str,
    collection: Collection,
) -> Result<Option<EndTerm>, TypeFault>
    ensures { ReadsEnd (schema_of collection) (leaf place (bound_leaf content.now)) result }
{
    if content == ".." {
        return Ok(Some(EndTerm::Open));
    }
    match Day::read(content) {
        Some(day) => Ok(Some(EndTerm::Day(DayTerm::Constant(day)))),
        None => Err(at(place, Misuse::NotADate)),
    }
}

fn read_end_name(
    place: usize,
    name: &str,
    collection: Collection,
) -> Result<Option<EndTerm>, TypeFault>
    ensures { ReadsEnd (schema_of collection) (leaf place (name_leaf name.now)) result }
{
    match find_property(collection, name) {
        None => Err(at(place, Misuse::UnknownProperty)),
        Some((property, kind)) => Ok(end_of_property(property, kind)),
    }
}

fn end_of_property(property: usize, kind: PropertyKind) -> Option<EndTerm>
    ensures { result ≡ property_end property kind }
{
    match kind {
        PropertyKind::Day => Some(EndTerm::Day(DayTerm::Property(property))),
        _ => None,
    }
}

// Both ends are literal days, the last before the first.
fn are_turned(from: &EndTerm, to: &EndTerm) -> bool
    ensures { result ≡ is_turned (end_day from.now) (end_day to.now) }
{
    match (literal_day(from), literal_day(to)) {
        (Some(first), Some(last)) => last < first,
        _ => false,
    }
}

fn literal_day(end: &EndTerm) -> Option<Day>
    ensures { option_map number_of result ≡ end_day end.now }
{
    match end {
        EndTerm::Day(DayTerm::Constant(day)) => Some(*day),
        _ => None,
    }
}

fn read_number(number: &Number) -> Result<i64, TypeFault>
    ensures { ReadsNumber number.now result }
{
    match whole_number(number) {
        Ok(value) => Ok(value),
        Err(cause) => Err(at(number.place, cause)),
    }
}

fn read_position(corner: &Corner) -> Result<Position, TypeFault>
    ensures { ReadsPosition corner.now result }
{
    let x = read_number(&corner.x)?;
    let y = read_number(&corner.y)?;
    Ok(Position { x, y })
}

/// `POINT`
pub(crate) fn point(
    place: usize,
    corner: &Corner,
    collection: Collection,
) -> Result<Judged, TypeFault>
    ensures { Judges (schema_of collection) (node (point_op place) (parts_of (numbers_of (corner.now ∷ [])))) result }
{
    let position = read_position(corner)?;
    let Some(point) = point_at(&position) else {
        return Err(at(place, Misuse::BadShape));
    };
    let node = Node::Spot(ShapeTerm::Constant(Shape::Spot(point)));
    Ok(Judged { place, node })
}

/// `BBOX`
pub(crate) fn bbox(
    place: usize,
    low: &Corner,
    high: &Corner,
    collection: Collection,
) -> Result<Judged, TypeFault>
    ensures { Judges (schema_of collection) (node (bbox_op place) (parts_of (numbers_of (low.now ∷ high.now ∷ [])))) result }
{
    let low = read_position(low)?;
    let high = read_position(high)?;
    let Some(bounds) = frame_between(low, high) else {
        return Err(at(place, Misuse::BadShape));
    };
    let node = Node::Frame(ShapeTerm::Constant(Shape::Frame(bounds)));
    Ok(Judged { place, node })
}

// The box between two corners, the least first, if it has width and height.
fn frame_between(low: Position, high: Position) -> Option<Bounds>
    ensures { MatchOption result (¬ IsFrame low high) (λ bounds. IsFrame low high
        × ((bounds.x_min ≡ low.x) × (bounds.y_min ≡ low.y)) × ((bounds.x_max ≡ high.x) × (bounds.y_max ≡ high.y))) }
{
    if low.x < high.x && low.y < high.y {
        Bounds::new(low.x, low.y, high.x, high.y)
    } else {
        None
    }
}

/// `POLYGON`
pub(crate) fn polygon(
    alloc: Global,
    place: usize,
    rings: &[cql_tree::Ring],
    collection: Collection,
) -> Result<Judged, TypeFault>
    ensures { Judges (schema_of collection) (node (polygon_op place) (parts_of (rings_of rings.now))) result }
{
    let lines = read_lines(alloc, rings)?;
    let region = region_along(alloc, &lines)?;
    let Some(region) = region else {
        return Err(at(place, Misuse::BadShape));
    };
    let node = Node::Area(ShapeTerm::Constant(Shape::Area(region)));
    Ok(Judged { place, node })
}

fn read_lines(alloc: Global, rings: &[cql_tree::Ring]) -> Result<Vec<Vec<Position>>, TypeFault>
    ensures { ReadsLines rings.now result }
{
    let mut lines = Vec::new(alloc);
    for ring in rings {
        lines.push(read_line(alloc, &ring.corners)?)?;
    }
    Ok(lines)
}

fn read_line(alloc: Global, corners: &[Corner]) -> Result<Vec<Position>, TypeFault>
    ensures { ReadsLine corners.now result }
{
    let mut line = Vec::new(alloc);
    for corner in corners {
        line.push(read_position(corner)?)?;
    }
    Ok(line)
}

// The region inside the rings along these lines, the exterior boundary first, if there is one.
fn region_along(alloc: Global, lines: &[Vec<Position>]) -> Result<Option<Region>, AllocError>
    ensures { IfOk result (λ region. IsRegionAlong (lines_of lines.now) region) }
{
    let rings = rings_along(alloc, lines)?;
    let Some(rings) = rings else {
        return Ok(None);
    };
    let found = region_inside(alloc, rings)?;
    Ok(found)
}

// The region inside these rings, the exterior boundary first, if they bound one.
#[tactic(auto, using(cad_shape::specs::RegionRings::no_region))]
fn region_inside(alloc: Global, rings: Vec<Ring>) -> Result<Option<Region>, AllocError>
    ensures { IfOk result (λ found. MatchOption found (¬ IsRegion rings.items) (λ region. region_rings region ≡ rings.items)) }
{
    let rings = Rc::new(alloc, rings)?;
    match Region::new(rings) {
        Ok(region) => Ok(Some(region)),
        Err(_) => Ok(None),
    }
}

// The rings along these lines, if each is one.
fn rings_along(alloc: Global, lines: &[Vec<Position>]) -> Result<Option<Vec<Ring>>, AllocError>
    ensures { IfOk result (λ rings. MatchOption rings ((all : List Ring) → ¬ (outlines_of all ≡ lines_of lines.now))
        (λ rings. outlines_of rings.items ≡ lines_of lines.now)) }
{
    let mut rings = Vec::new(alloc);
    for line in lines {
        let Some(ring) = ring_along(alloc, line)? else {
            return Ok(None);
        };
        rings.push(ring)?;
    }
    Ok(Some(rings))
}

// The ring along a line that ends where it begins.
fn ring_along(alloc: Global, line: &[Position]) -> Result<Option<Ring>, AllocError>
    ensures { IfOk result (λ ring. MatchOption ring ((corners : List Point) → coordinates_of (closed corners) ≡ positions_of line.now → ¬ IsRing corners)
        (λ ring. outline_of ring ≡ positions_of line.now)) }
{
    let points = points_along(alloc, line)?;
    let Some(points) = points else {
        return Ok(None);
    };
    Ok(ring_closed(points))
}

// The points of the plane at these positions, if each is one.
fn points_along(alloc: Global, line: &[Position]) -> Result<Option<Vec<Point>>, AllocError>
    ensures { IfOk result (λ points. MatchOption points ((all : List Point) → ¬ (coordinates_of all ≡ positions_of line.now))
        (λ points. coordinates_of points.items ≡ positions_of line.now)) }
{
    let mut points = Vec::new(alloc);
    for position in line {
        let Some(point) = point_at(position) else {
            return Ok(None);
        };
        points.push(point)?;
    }
    Ok(Some(points))
}

// The point of the plane at that position, if it is one.
fn point_at(position: &Position) -> Option<Point>
    ensures { MatchOption result (¬ (IsCoordinate position.now.x × IsCoordinate position.now.y)) (λ point. (point.x ≡ position.now.x) × (point.y ≡ position.now.y)) }
{
    Point::new(position.x, position.y)
}

// The ring through the points, the last of which is the first one again.
fn ring_closed(mut points: Vec<Point>) -> Option<Ring>
    ensures { MatchOption result ((corners : List Point) → closed corners ≡ points.items → ¬ IsRing corners)
        (λ ring. closed (corners_of ring) ≡ points.items) }
{
    let last = points.pop()?;
    if !begins_with(&points, last) {
        return None;
    }
    Ring::new(points).ok()
}

fn begins_with(points: &[Point], point: Point) -> bool
    ensures { IsTrue result ↔ (slice_get points.now 0 ≡ Some point) }
{
    match points {
        [first, ..] => are_same(*first, point),
        [] => false,
    }
}

fn are_same(a: Point, b: Point) -> bool
    ensures { IsTrue result ↔ ((a.x ≡ b.x) × (a.y ≡ b.y)) }
{
    a.x == b.x && a.y == b.y
}
