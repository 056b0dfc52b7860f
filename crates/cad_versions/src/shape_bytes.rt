//! Shapes as they are stored.

ghost use Rattle.std.specs.Prelude.{◌≡◌, ◌≢◌, ◌∷◌, List, MatchOption, IfOk};
ghost use Rattle.std.specs.Int.{to_be_bytes, w16};
ghost use Rattle.cad_shape.specs.declared.ring.Ring.{Ring as RingOfCorners};
ghost use Rattle.cad_shape.specs.declared.polygon.Region.{Region as RegionOfRings};
ghost use Rattle.cad_shape.specs.Polygons.{IsRegion};
ghost use Rattle.cad_shape.specs.RegionRings.{rings_of};
ghost use Rattle.cad_versions.specs.ShapeBytes.{rings_bytes, shape_bytes, IsOneRingOf, AreRingsOf, IsShapeOf};

use crate::ring_bytes::{first_count, first_ring, push_ring};
use cad_shape::{Region, Ring};
use std::alloc::{AllocError, Global};
use std::rc::Rc;

// The form with one ring, which is only read.
const ONE_RING: u8 = 1;

// The form of an outer ring and holes.
const RINGS: u8 = 2;

/// The form and the number of rings.
fn shape_front(alloc: Global, count: u16) -> Result<Vec<u8>, AllocError>
    ensures { IfOk result (λ bytes. bytes.items ≡ 2 ∷ to_be_bytes w16 count) }
{
    let mut bytes = Vec::new(alloc);
    bytes.push(RINGS)?;
    bytes.extend_from_slice(&count.to_be_bytes())?;
    Ok(bytes)
}

/// The bytes in which a shape is stored: 2, the number of rings in two bytes, then each ring as the number of its corners in two bytes and
/// x and y of each corner in eight bytes of two's complement, all big-endian.
pub fn write_shape(alloc: Global, region: &Region) -> Result<Vec<u8>, AllocError>
    ensures { IfOk result (λ bytes. bytes.items ≡ shape_bytes region.now) }
{
    let rings = region.rings();
    let mut bytes = shape_front(alloc, rings.len() as u16)?;
    for ring in rings {
        push_ring(&mut bytes, ring)?;
    }
    Ok(bytes)
}

/// All rings, if the bytes are rings one after the other.
fn all_rings(alloc: Global, bytes: &[u8]) -> Result<Option<Vec<Ring>>, AllocError>
    ensures { IfOk result (λ found. MatchOption found ((rings : List RingOfCorners) →
        bytes.now ≢ rings_bytes rings) (λ rings. bytes.now ≡ rings_bytes rings.items)) }
{
    // Nearly all shapes have one ring.
    let mut rings = Vec::with_capacity(alloc, 1)?;
    let mut rest = bytes;
    while !rest.is_empty() {
        let Some((ring, behind)) = first_ring(alloc, rest)? else {
            return Ok(None);
        };
        rings.push(ring)?;
        rest = behind;
    }
    Ok(Some(rings))
}

/// The region of these rings, if they are the rings of a region.
fn region_of(alloc: Global, rings: Vec<Ring>) -> Result<Option<Region>, AllocError>
    ensures { IfOk result (λ found. MatchOption found (¬ (IsRegion rings.items)) (λ region. rings_of region ≡ rings.items)) }
{
    let rings = Rc::new(alloc, rings)?;
    match Region::new(rings) {
        Ok(region) => Ok(Some(region)),
        Err(_) => Ok(None),
    }
}

/// The region of one ring, with nothing after the ring.
fn read_one_ring(alloc: Global, bytes: &[u8]) -> Result<Option<Region>, AllocError>
    ensures { IfOk result (λ found. MatchOption found ((region : RegionOfRings) →
        ¬ IsOneRingOf bytes.now region) (IsOneRingOf bytes.now)) }
{
    let Some((ring, behind)) = first_ring(alloc, bytes)? else {
        return Ok(None);
    };
    if !behind.is_empty() {
        return Ok(None);
    }
    let region = Region::of(alloc, ring)?;
    Ok(Some(region))
}

/// The region of the rings, if there are as many as are counted and nothing after them.
fn read_rings(alloc: Global, bytes: &[u8]) -> Result<Option<Region>, AllocError>
    ensures { IfOk result (λ found. MatchOption found ((region : RegionOfRings) →
        ¬ AreRingsOf bytes.now region) (AreRingsOf bytes.now)) }
{
    let Some((count, rest)) = first_count(bytes) else {
        return Ok(None);
    };
    let Some(rings) = all_rings(alloc, rest)? else {
        return Ok(None);
    };
    if rings.as_slice().len() != count {
        return Ok(None);
    }
    region_of(alloc, rings)
}

/// The shape that is stored in these bytes, in the current form or in that of one ring; `Ok(None)` if they store none.
pub fn read_shape(alloc: Global, bytes: &[u8]) -> Result<Option<Region>, AllocError>
    ensures { IfOk result (λ found. MatchOption found ((region : RegionOfRings) →
        ¬ IsShapeOf bytes.now region) (IsShapeOf bytes.now)) }
{
    let Some((form, rest)) = bytes.split_first() else {
        return Ok(None);
    };
    if *form == ONE_RING {
        return read_one_ring(alloc, rest);
    }
    if *form == RINGS {
        return read_rings(alloc, rest);
    }
    Ok(None)
}
