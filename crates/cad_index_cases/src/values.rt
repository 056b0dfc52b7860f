//! Values that lines write.

use cad_day::Day;
use cad_feature::{Edge, Scalar};
use cad_schema::PropertyKind;
use cad_shape::{Bounds, Point, Region, Ring};
use std::alloc::{AllocError, Global};

fn number(word: &str) -> Option<i64> {
    word.parse().ok()
}

/// A point, `X,Y`.
pub fn point(word: &str) -> Option<Point> {
    let (x, y) = word.split_once(',')?;
    Point::new(number(x)?, number(y)?)
}

/// A box, `X,Y,X,Y` by its least and greatest corner.
pub fn bounds(word: &str) -> Option<Bounds> {
    let (x_min, rest) = word.split_once(',')?;
    let (y_min, rest) = rest.split_once(',')?;
    let (x_max, y_max) = rest.split_once(',')?;
    Bounds::new(
        number(x_min)?,
        number(y_min)?,
        number(x_max)?,
        number(y_max)?,
    )
}

/// The region inside these corners, if they are those of a ring.
pub fn region(alloc: Global, corners: Vec<Point>) -> Result<Option<Region>, AllocError> {
    let Some(ring) = Ring::new(corners).ok() else {
        return Ok(None);
    };
    Ok(Some(Region::of(alloc, ring)?))
}

/// The rectangle of a box that is not flat.
pub fn rectangle(alloc: Global, word: &str) -> Result<Option<Region>, AllocError> {
    match bounds(word) {
        None => Ok(None),
        Some(bounds) => {
            let corners = Vec::from_array(alloc, bounds.corners())?;
            region(alloc, corners)
        }
    }
}

fn scalar(alloc: Global, kind: PropertyKind, word: &str) -> Result<Option<Scalar>, AllocError> {
    match kind {
        PropertyKind::Text => {
            let text = String::from_str(alloc, word)?;
            Ok(Some(Scalar::Text(text)))
        }
        PropertyKind::Whole => Ok(word.parse().ok().map(Scalar::Whole)),
        PropertyKind::Day => Ok(Day::read(word).map(Scalar::Day)),
        _ => Ok(None),
    }
}

/// An end of a range: `free`, `with:VALUE` or `without:VALUE`.
pub fn edge(alloc: Global, kind: PropertyKind, word: &str) -> Result<Option<Edge>, AllocError> {
    if word == "free" {
        return Ok(Some(Edge::Free));
    }
    match word.split_once(':') {
        Some(("with", value)) => Ok(scalar(alloc, kind, value)?.map(Edge::With)),
        Some(("without", value)) => Ok(scalar(alloc, kind, value)?.map(Edge::Without)),
        _ => Ok(None),
    }
}
