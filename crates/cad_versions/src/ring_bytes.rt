//! Rings as they are stored.

ghost use Rattle.std.specs.Prelude.{◌≡◌, ◌≢◌, ◌<◌, ◌^◌, ◌++◌, ℕ, List, length, MatchOption, IfOk, OnOk, FitsSigned};
ghost use Rattle.std.specs.Int.{to_be_bytes, w16, w64};
ghost use Rattle.cad_shape.specs.declared.point.Point.{Point as Corner};
ghost use Rattle.cad_shape.specs.declared.ring.Ring.{Ring as RingOfCorners};
ghost use Rattle.cad_shape.specs.Outlines.{IsRing};
ghost use Rattle.cad_shape.specs.Rings.{corners_of};
ghost use Rattle.cad_versions.specs.ShapeBytes.{coordinate_bytes, corner_bytes, corners_bytes, ring_bytes};

use cad_shape::{Point, Ring};
use std::alloc::{AllocError, Global};

// How many bytes a corner takes.
const CORNER_BYTES: usize = 16;

/// Appends a number to the bytes.
#[tactic(auto, unfolding(crate::specs::ShapeBytes::coordinate_bytes))]
fn push_coordinate(bytes: &mut Vec<u8>, coordinate: i64) -> Result<(), AllocError>
    ensures { OnOk result (bytes.new.items ≡ bytes.old.items ++ coordinate_bytes coordinate) }
{
    bytes.extend_from_slice(&coordinate.to_be_bytes())
}

fn push_corner(bytes: &mut Vec<u8>, corner: Point) -> Result<(), AllocError>
    ensures { OnOk result (bytes.new.items ≡ bytes.old.items ++ corner_bytes corner) }
{
    push_coordinate(bytes, corner.x)?;
    push_coordinate(bytes, corner.y)?;
    Ok(())
}

/// Appends the number of the ring's corners and the corners to the bytes.
pub(crate) fn push_ring(bytes: &mut Vec<u8>, ring: &Ring) -> Result<(), AllocError>
    ensures { OnOk result (bytes.new.items ≡ bytes.old.items ++ ring_bytes ring.now) }
{
    let corners = ring.corners();
    let count = corners.len() as u16;
    bytes.extend_from_slice(&count.to_be_bytes())?;
    for corner in corners {
        push_corner(bytes, *corner)?;
    }
    Ok(())
}

/// The number at the front, and the bytes after it.
fn first_coordinate(bytes: &[u8]) -> Option<(i64, &[u8])>
    ensures { MatchOption result (length bytes.now < 8) (λ found.
        (bytes.now ≡ coordinate_bytes found.0 ++ found.1.now) × FitsSigned w64 found.0) }
{
    let (coordinate, rest) = bytes.split_first_chunk::<8>()?;
    let bits = u64::from_be_bytes(*coordinate);
    Some((bits.cast_signed(), rest))
}

/// The corner at the front, and the bytes after it.
fn first_corner(bytes: &[u8]) -> Option<(Point, &[u8])>
    ensures { MatchOption result ((corner : Corner) (rest : List ℕ) →
        bytes.now ≢ corner_bytes corner ++ rest)
        (λ found. bytes.now ≡ corner_bytes found.0 ++ found.1.now) }
{
    let (x, rest) = first_coordinate(bytes)?;
    let (y, rest) = first_coordinate(rest)?;
    let corner = Point::new(x, y)?;
    Some((corner, rest))
}

/// All corners, if the bytes are corners one after the other.
fn all_corners(alloc: Global, bytes: &[u8]) -> Result<Option<Vec<Point>>, AllocError>
    ensures { IfOk result (λ found. MatchOption found ((corners : List Corner) →
        bytes.now ≢ corners_bytes corners) (λ corners. bytes.now ≡ corners_bytes corners.items)) }
{
    let mut corners = Vec::new(alloc);
    let mut rest = bytes;
    while !rest.is_empty() {
        let Some((corner, behind)) = first_corner(rest) else {
            return Ok(None);
        };
        corners.push(corner)?;
        rest = behind;
    }
    Ok(Some(corners))
}

/// The ring through these corners, if they are the corners of a ring.
fn ring_through(corners: Vec<Point>) -> Option<Ring>
    ensures { MatchOption result (¬ (IsRing corners.items)) (λ ring. corners_of ring ≡ corners.items) }
{
    match Ring::new(corners) {
        Ok(ring) => Some(ring),
        Err(_) => None,
    }
}

/// A number of two bytes, and the bytes after it.
pub(crate) fn first_count(bytes: &[u8]) -> Option<(usize, &[u8])>
    ensures { MatchOption result (length bytes.now < 2) (λ found.
        (bytes.now ≡ to_be_bytes w16 found.0 ++ found.1.now) × (found.0 < 2 ^ 16)) }
{
    let [high, low, rest @ ..] = bytes else {
        return None;
    };
    let count = u16::from_be_bytes([*high, *low]);
    Some((usize::from(count), rest))
}

/// The ring at the front, and the bytes after it.
pub(crate) fn first_ring(alloc: Global, bytes: &[u8]) -> Result<Option<(Ring, &[u8])>, AllocError>
    ensures { IfOk result (λ found. MatchOption found ((ring : RingOfCorners) (rest : List ℕ) →
        bytes.now ≢ ring_bytes ring ++ rest) (λ found. bytes.now ≡ ring_bytes found.0 ++ found.1.now)) }
{
    let Some((count, rest)) = first_count(bytes) else {
        return Ok(None);
    };
    let Some((front, behind)) = rest.split_at_checked(CORNER_BYTES * count) else {
        return Ok(None);
    };
    let Some(corners) = all_corners(alloc, front)? else {
        return Ok(None);
    };
    match ring_through(corners) {
        Some(ring) => Ok(Some((ring, behind))),
        None => Ok(None),
    }
}
