//! Rings, shapes and their relations. Each line has an answer:
//!
//! - `ring P P P ..`: `ok`, or the fault of a ring through these corners
//! - `region RING ; RING ..`: `ok`, or the fault of a region of these rings, the outer one first; with none it is NoRing
//! - `segments P P P P`: whether the two segments share a point
//! - `inside P RING ; RING ..`: whether the point lies in the region of the rings
//! - `bounds SHAPE`: the least box that holds the shape
//! - `shapes SHAPE / SHAPE`: whether they meet, and whether the first lies within the second, `none` if that is not asked
//!
//! P is a point, `X,Y`, and a ring is its corners, `P P P ..`. A shape is `spot P`, `frame P P` by its least and greatest corner, or `area
//! RING ; RING ..`. A line with a part that cannot be read is answered by `unread`.

use cad_shape::{
    Bounds, Point, Region, RegionFault, Ring, RingFault, Shape, bounds, in_region, meets,
    segments_meet, within,
};
use std::alloc::{AllocError, AllocFailed, Global};
use std::io;
use std::io::{Error, ErrorKind};
use std::rc::Rc;

// Why a case has no answer.
#[derive(Clone, Copy)]
enum NoAnswer {
    // A part of it cannot be read.
    Unread,
    // Memory was refused.
    Memory,
}

impl<T: Drop> From<AllocFailed<T>> for NoAnswer {
    fn from(_refused: AllocFailed<T>) -> NoAnswer {
        NoAnswer::Memory
    }
}

fn point(text: &str) -> Option<Point> {
    let (x, y) = text.split_once(',')?;
    Point::new(x.parse().ok()?, y.parse().ok()?)
}

// The points of these words.
fn points(alloc: Global, text: &str) -> Result<Vec<Point>, NoAnswer> {
    let mut points = Vec::new(alloc);
    for word in text.split_whitespace() {
        let Some(point) = point(word) else {
            return Err(NoAnswer::Unread);
        };
        points.push(point)?;
    }
    Ok(points)
}

fn ring(alloc: Global, text: &str) -> Result<Ring, NoAnswer> {
    let corners = points(alloc, text)?;
    Ring::new(corners).ok().ok_or(NoAnswer::Unread)
}

// The rings of these parts. An empty text has no rings.
fn rings(alloc: Global, text: &str) -> Result<Rc<Vec<Ring>>, NoAnswer> {
    let mut rings = Vec::new(alloc);
    if !text.is_empty() {
        for part in text.split(';') {
            let ring = ring(alloc, part)?;
            rings.push(ring)?;
        }
    }
    Ok(Rc::new(alloc, rings)?)
}

fn region(alloc: Global, text: &str) -> Result<Region, NoAnswer> {
    let rings = rings(alloc, text)?;
    Region::new(rings).ok().ok_or(NoAnswer::Unread)
}

fn frame(text: &str) -> Option<Shape> {
    let (least, greatest) = text.split_once(' ')?;
    let least = point(least)?;
    let greatest = point(greatest)?;
    let bounds = Bounds::new(least.x, least.y, greatest.x, greatest.y)?;
    Some(Shape::Frame(bounds))
}

fn shape(alloc: Global, text: &str) -> Result<Shape, NoAnswer> {
    let (kind, rest) = text.trim().split_once(' ').ok_or(NoAnswer::Unread)?;
    match kind {
        "spot" => point(rest).map(Shape::Spot).ok_or(NoAnswer::Unread),
        "frame" => frame(rest).ok_or(NoAnswer::Unread),
        "area" => region(alloc, rest).map(Shape::Area),
        _ => Err(NoAnswer::Unread),
    }
}

fn put_unread(answer: &mut String) -> Result<(), AllocError> {
    answer.push_str("unread")
}

// Appends `unread` for a case that cannot be read. Out of memory is an error.
fn put_none(answer: &mut String, none: NoAnswer) -> Result<(), AllocError> {
    match none {
        NoAnswer::Unread => put_unread(answer),
        NoAnswer::Memory => Err(AllocError),
    }
}

fn put_fault(answer: &mut String, number: u8, name: &str) -> Result<(), AllocError> {
    write!(answer, "{number} {name}")
}

fn put_ring_fault(answer: &mut String, fault: RingFault) -> Result<(), AllocError> {
    let (number, name) = (fault.number(), fault.name());
    match fault {
        RingFault::Crosses { first, second } => {
            write!(answer, "{number} {name} {first} {second}")
        }
        _ => put_fault(answer, number, name),
    }
}

fn put_copied(answer: &mut String, same: bool) -> Result<(), AllocError> {
    answer.push_str(if same { "ok" } else { "copied wrongly" })
}

fn put_ring(alloc: Global, answer: &mut String, ring: &Ring) -> Result<(), AllocError> {
    let copy = ring.copy(alloc)?;
    put_copied(answer, copy.corners() == ring.corners())
}

fn put_ring_answer(alloc: Global, answer: &mut String, text: &str) -> Result<(), AllocError> {
    match points(alloc, text) {
        Ok(corners) => match Ring::new(corners) {
            Ok(ring) => put_ring(alloc, answer, &ring),
            Err((fault, _corners)) => put_ring_fault(answer, fault),
        },
        Err(none) => put_none(answer, none),
    }
}

fn same_rings(first: &[Ring], second: &[Ring]) -> bool {
    first.len() == second.len()
        && first
            .iter()
            .zip(second)
            .all(|(a, b)| a.corners() == b.corners())
}

fn put_region_fault(answer: &mut String, fault: RegionFault) -> Result<(), AllocError> {
    let (number, name) = (fault.number(), fault.name());
    match fault {
        RegionFault::Outside { ring } => write!(answer, "{number} {name} {ring}"),
        _ => put_fault(answer, number, name),
    }
}

fn put_region(answer: &mut String, region: &Region) -> Result<(), AllocError> {
    let copy = region.copy()?;
    put_copied(answer, same_rings(copy.rings(), region.rings()))
}

fn put_region_answer(alloc: Global, answer: &mut String, text: &str) -> Result<(), AllocError> {
    match rings(alloc, text) {
        Ok(rings) => match Region::new(rings) {
            Ok(region) => put_region(answer, &region),
            Err((fault, _rings)) => put_region_fault(answer, fault),
        },
        Err(none) => put_none(answer, none),
    }
}

fn put_flag(answer: &mut String, flag: bool) -> Result<(), AllocError> {
    answer.push_str(if flag { "true" } else { "false" })
}

fn put_segments(answer: &mut String, ends: &[Point]) -> Result<(), AllocError> {
    match ends {
        [p, q, r, s] => put_flag(answer, segments_meet(*p, *q, *r, *s)),
        _ => put_unread(answer),
    }
}

fn put_segments_answer(alloc: Global, answer: &mut String, text: &str) -> Result<(), AllocError> {
    match points(alloc, text) {
        Ok(ends) => put_segments(answer, &ends),
        Err(none) => put_none(answer, none),
    }
}

fn put_inside_answer(alloc: Global, answer: &mut String, text: &str) -> Result<(), AllocError> {
    let Some((first, rest)) = text.split_once(' ') else {
        return put_unread(answer);
    };
    let Some(point) = point(first) else {
        return put_unread(answer);
    };
    match region(alloc, rest) {
        Ok(region) => put_flag(answer, in_region(point, &region)),
        Err(none) => put_none(answer, none),
    }
}

fn put_bounds(answer: &mut String, bounds: Bounds) -> Result<(), AllocError> {
    write!(
        answer,
        "{},{} {},{}",
        bounds.x_min, bounds.y_min, bounds.x_max, bounds.y_max
    )
}

fn put_bounds_answer(alloc: Global, answer: &mut String, text: &str) -> Result<(), AllocError> {
    match shape(alloc, text) {
        Ok(shape) => put_bounds(answer, bounds(&shape)),
        Err(none) => put_none(answer, none),
    }
}

fn put_shapes(answer: &mut String, first: &Shape, second: &Shape) -> Result<(), AllocError> {
    let meet = meets(first, second);
    match within(first, second) {
        Some(inside) => write!(answer, "meets {meet} within {inside}"),
        None => write!(answer, "meets {meet} within none"),
    }
}

// The answer to a shape and the shape of a text.
fn put_shape_answer(
    alloc: Global,
    answer: &mut String,
    first: &Shape,
    text: &str,
) -> Result<(), AllocError> {
    match shape(alloc, text) {
        Ok(second) => put_shapes(answer, first, &second),
        Err(none) => put_none(answer, none),
    }
}

fn put_shapes_answer(alloc: Global, answer: &mut String, text: &str) -> Result<(), AllocError> {
    let Some((first, second)) = text.split_once('/') else {
        return put_unread(answer);
    };
    match shape(alloc, first) {
        Ok(first) => put_shape_answer(alloc, answer, &first, second),
        Err(none) => put_none(answer, none),
    }
}

/// Appends the answer to the case of this line.
fn put_answer(alloc: Global, line: &str, answer: &mut String) -> Result<(), AllocError> {
    let (question, rest) = line.split_once(' ').unwrap_or((line, ""));
    match question {
        "ring" => put_ring_answer(alloc, answer, rest),
        "region" => put_region_answer(alloc, answer, rest),
        "segments" => put_segments_answer(alloc, answer, rest),
        "inside" => put_inside_answer(alloc, answer, rest),
        "bounds" => put_bounds_answer(alloc, answer, rest),
        "shapes" => put_shapes_answer(alloc, answer, rest),
        _ => put_unread(answer),
    }
}

/// Prints the answer to each line.
pub(crate) fn print_answers(rt: &HostRuntime, lines: &[u8]) -> io::Result<()> {
    let Ok(text) = str::from_utf8(lines) else {
        return Err(Error::from(ErrorKind::InvalidData));
    };
    for line in text.lines() {
        let mut answer = String::new(rt.alloc());
        put_answer(rt.alloc(), line, &mut answer)?;
        println!(rt; "{answer}")?;
    }
    Ok(())
}
