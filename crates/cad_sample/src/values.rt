//! Numbers, days, texts and rings that are written out in the code.

ghost use Rattle.std.specs.Prelude.{◌≡◌, ◌∷◌, [], map, Some, is_some, IsTrue, IfOk};
ghost use Rattle.cad_day.specs.Days.{number_of};
ghost use Rattle.cad_day.specs.DayTexts.{day_named};
ghost use Rattle.cad_shape.specs.PlainRings.{is_plain_ring};
ghost use Rattle.cad_shape.specs.Rings.{corners_of};
ghost use Rattle.cad_versions.specs.Objects.{IsObjectNumber, object_number};
ghost use Rattle.cad_versions.specs.Texts.{AreWords, bytes_of};
ghost use Rattle.cad_sample.specs.Instructions.{coordinates_of, outlines_of};

use cad_day::Day;
use cad_shape::laws::plain_rings_are_rings;
use cad_shape::{Point, Region, Ring};
use cad_versions::{ObjectId, Words};
use std::alloc::{AllocError, Global};
use std::rc::Rc;

pub(crate) fn object_id(number: u32) -> ObjectId
    requires { IsObjectNumber number }
    ensures { object_number result ≡ number }
{
    ObjectId::new(number).unwrap()
}

pub(crate) fn day(text: &str) -> Day
    requires { IsTrue (is_some (day_named text.now)) }
    ensures { day_named text.now ≡ Some (number_of result) }
{
    Day::read(text).unwrap()
}

pub(crate) fn words(alloc: Global, text: &str) -> Result<Words, AllocError>
    requires { AreWords text.now }
    ensures { IfOk result (λ words. bytes_of words ≡ text.now) }
{
    let text = Rc::new(alloc, String::from_str(alloc, text)?)?;
    match Words::new(text) {
        Ok(words) => Ok(words),
        Err(_) => unreachable!(),
    }
}

fn ring(alloc: Global, corners: &[(i32, i32)]) -> Result<Ring, AllocError>
    requires { IsTrue (is_plain_ring corners.now) }
    ensures { IfOk result (λ ring. map coordinates_of (corners_of ring) ≡ corners.now) }
{
    let corners = points(alloc, corners)?;
    plain_rings_are_rings();
    match Ring::new(corners) {
        Ok(ring) => Ok(ring),
        Err(_) => unreachable!(),
    }
}

/// The region inside these corners.
pub(crate) fn region(alloc: Global, corners: &[(i32, i32)]) -> Result<Region, AllocError>
    requires { IsTrue (is_plain_ring corners.now) }
    ensures { IfOk result (λ region. outlines_of region ≡ corners.now ∷ []) }
{
    Region::of(alloc, ring(alloc, corners)?)
}

fn points(alloc: Global, corners: &[(i32, i32)]) -> Result<Vec<Point>, AllocError>
    ensures { IfOk result (λ points. map coordinates_of points.items ≡ corners.now) }
{
    let mut points = Vec::new(alloc);
    for (x, y) in corners {
        points.push(Point {
            x: i64::from(*x),
            y: i64::from(*y),
        })?;
    }
    Ok(points)
}
