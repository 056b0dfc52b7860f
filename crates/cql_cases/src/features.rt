//! The features that filters are asked about: the versions of four parcels, one of them with a reference point, a right
//! and a restriction.

use anyhow::{Context, Result};
use cad_day::{Day, Interval};
use cad_feature::{Feature, Period, Value};
use cad_schema::Collection;
use cad_shape::{Point, Region, Ring};
use cad_versions::{Identifier, ObjectId};
use std::alloc::{AllocError, Global};
use std::rc::Rc;

/// The features of each collection that has any.
#[derive(Drop)]
pub struct Features {
    parcels: Vec<Feature>,
    rights: Vec<Feature>,
    restrictions: Vec<Feature>,
}

/// A version's identifier and its days.
#[derive(Clone, Copy)]
pub struct Head<'a> {
    /// The object.
    pub object: u32,
    /// The number of the version.
    pub number: u32,
    /// The first day.
    pub begin: &'a str,
    /// The last day, if there is one.
    pub end: Option<&'a str>,
}

fn text(alloc: Global, text: Option<&str>) -> Result<Value, AllocError> {
    match text {
        Some(text) => {
            let text = Rc::new(alloc, String::from_str(alloc, text)?)?;
            Ok(Value::Text(text))
        }
        None => Ok(Value::Null),
    }
}

fn whole(number: Option<i64>) -> Value {
    number.map_or(Value::Null, Value::Whole)
}

fn day(day: Option<Day>) -> Value {
    day.map_or(Value::Null, Value::Day)
}

fn point(alloc: Global, point: Option<Point>) -> Result<Value, AllocError> {
    match point {
        Some(point) => Ok(Value::Spot(Box::new(alloc, point)?)),
        None => Ok(Value::Null),
    }
}

fn area(alloc: Global, corners: &[(i64, i64)]) -> Result<Value, AllocError> {
    let mut points = Vec::new(alloc);
    for (x, y) in corners {
        if let Some(point) = Point::new(*x, *y) {
            points.push(point)?;
        }
    }
    let Ok(ring) = Ring::new(points) else {
        return Ok(Value::Null);
    };
    Ok(Value::Area(Region::of(alloc, ring)?))
}

/// Appends the values that all features have.
fn put_head(alloc: Global, values: &mut Vec<Value>, head: Head) -> Result<()> {
    let begin = Day::read(head.begin).context("a day")?;
    let end = head.end.and_then(Day::read);
    let lifespan = Interval::new(Some(begin), end).context("days in order")?;
    values.push(Value::Whole(i64::from(head.object)))?;
    values.push(Value::Whole(i64::from(head.number)))?;
    values.push(Value::Day(begin))?;
    values.push(day(end))?;
    let lifespan = Box::new(alloc, lifespan)?;
    Ok(values.push(Value::Span(lifespan))?)
}

fn put_text(alloc: Global, values: &mut Vec<Value>, words: Option<&str>) -> Result<(), AllocError> {
    let value = text(alloc, words)?;
    Ok(values.push(value)?)
}

/// The feature of a version with these values.
fn feature(head: Head, values: Vec<Value>) -> Result<Feature> {
    let object = ObjectId::new(head.object).context("an object's number")?;
    let identifier = Identifier::new(object, head.number).context("a version's number")?;
    let period = Period::always();
    Ok(Feature::new(identifier.object, identifier.number, values, period))
}

/// What a parcel has in addition to its days.
#[derive(Clone, Copy)]
pub struct ParcelValues<'a> {
    /// The name on maps.
    pub label: &'a str,
    /// The area in square metres, if it is given.
    pub area: Option<i64>,
    /// The corners of the region; none if it has no shape.
    pub corners: &'a [(i64, i64)],
    /// The reference point, if it has one.
    pub spot: Option<(i64, i64)>,
    /// The object of its unit.
    pub unit: i64,
    /// The name of its unit, if it has one.
    pub unit_name: Option<&'a str>,
}

fn put_parcel(
    alloc: Global,
    values: &mut Vec<Value>,
    parcel: &ParcelValues,
) -> Result<(), AllocError> {
    put_text(alloc, values, Some(parcel.label))?;
    values.push(whole(parcel.area))?;
    let area = area(alloc, parcel.corners)?;
    values.push(area)?;
    let spot = parcel.spot.and_then(|(x, y)| Point::new(x, y));
    let spot = point(alloc, spot)?;
    values.push(spot)?;
    values.push(Value::Whole(parcel.unit))?;
    put_text(alloc, values, parcel.unit_name)
}

/// A parcel's feature.
pub fn parcel(alloc: Global, head: Head, parcel: &ParcelValues) -> Result<Feature> {
    let mut values = Vec::new(alloc);
    put_head(alloc, &mut values, head)?;
    put_parcel(alloc, &mut values, parcel)?;
    feature(head, values)
}

// What a right and a restriction have.
#[derive(Clone, Copy)]
struct RightValues<'a> {
    kind: &'a str,
    share: Option<(i64, i64)>,
    unit: i64,
    unit_name: Option<&'a str>,
    party: Option<i64>,
    party_name: Option<&'a str>,
}

fn put_held(alloc: Global, values: &mut Vec<Value>, right: &RightValues) -> Result<(), AllocError> {
    put_text(alloc, values, Some(right.kind))?;
    values.push(whole(right.share.map(|share| share.0)))?;
    values.push(whole(right.share.map(|share| share.1)))?;
    values.push(Value::Whole(right.unit))?;
    put_text(alloc, values, right.unit_name)?;
    values.push(whole(right.party))?;
    put_text(alloc, values, right.party_name)
}

/// The feature of a right, or of a restriction, which says whether it is required.
fn held(alloc: Global, head: Head, right: &RightValues, required: Option<bool>) -> Result<Feature> {
    let mut values = Vec::new(alloc);
    put_head(alloc, &mut values, head)?;
    put_held(alloc, &mut values, right)?;
    if let Some(required) = required {
        values.push(Value::Flag(required))?;
    }
    feature(head, values)
}

const FIRST: Head = Head {
    object: 1,
    number: 1,
    begin: "2001-01-01",
    end: Some("2009-12-31"),
};

// The same parcel from that day on.
const SECOND: Head = Head {
    object: 1,
    number: 2,
    begin: "2010-01-01",
    end: None,
};

const fn open(object: u32, begin: &str) -> Head {
    Head {
        object,
        number: 1,
        begin,
        end: None,
    }
}

const SQUARE: [(i64, i64); 4] = [(0, 0), (20_000, 0), (20_000, 20_000), (0, 20_000)];

const NEXT_SQUARE: [(i64, i64); 4] = [(20_000, 0), (40_000, 0), (40_000, 20_000), (20_000, 20_000)];

const TRIANGLE: [(i64, i64); 3] = [(0, 30_000), (30_000, 30_000), (0, 60_000)];

const fn of_mill<'a>(
    label: &'a str,
    area: Option<i64>,
    corners: &'a [(i64, i64)],
) -> ParcelValues<'a> {
    ParcelValues {
        label,
        area,
        corners,
        spot: None,
        unit: 10,
        unit_name: Some("Mill"),
    }
}

const THIRD: ParcelValues = ParcelValues {
    label: "b-7",
    area: Some(900),
    corners: &TRIANGLE,
    spot: None,
    unit: 11,
    unit_name: None,
};

const FOURTH: ParcelValues = ParcelValues {
    label: "C%1",
    area: Some(0),
    corners: &[],
    spot: Some((10_000, 10_000)),
    unit: 11,
    unit_name: None,
};

fn put_parcels(alloc: Global, parcels: &mut Vec<Feature>) -> Result<()> {
    for (head, values) in [
        (FIRST, of_mill("A-1", Some(400), &SQUARE)),
        (SECOND, of_mill("A-1", Some(380), &SQUARE)),
        (open(2, "2005-06-01"), of_mill("A-2", None, &NEXT_SQUARE)),
        (open(3, "2003-01-01"), THIRD),
        (open(4, "2003-01-01"), FOURTH),
    ] {
        let parcel = parcel(alloc, head, &values)?;
        parcels.push(parcel)?;
    }
    Ok(())
}

fn parcels(alloc: Global) -> Result<Vec<Feature>> {
    let mut parcels = Vec::new(alloc);
    put_parcels(alloc, &mut parcels)?;
    Ok(parcels)
}

fn rights(alloc: Global) -> Result<Vec<Feature>> {
    let right = RightValues {
        kind: "ownership",
        share: Some((1, 2)),
        unit: 10,
        unit_name: Some("Mill"),
        party: Some(20),
        party_name: Some("Ana Straße"),
    };
    let mut rights = Vec::new(alloc);
    rights.push(held(alloc, open(30, "2005-01-01"), &right, None)?)?;
    Ok(rights)
}

fn restrictions(alloc: Global) -> Result<Vec<Feature>> {
    let restriction = RightValues {
        kind: "noBuilding",
        share: None,
        unit: 11,
        unit_name: None,
        party: None,
        party_name: None,
    };
    let restriction = held(alloc, open(31, "2006-01-01"), &restriction, Some(false))?;
    let mut restrictions = Vec::new(alloc);
    restrictions.push(restriction)?;
    Ok(restrictions)
}

impl Features {
    /// Makes all features.
    pub fn new(alloc: Global) -> Result<Features> {
        Ok(Features {
            parcels: parcels(alloc)?,
            rights: rights(alloc)?,
            restrictions: restrictions(alloc)?,
        })
    }

    /// The features of a collection, in the order of their identifiers.
    pub fn of(&self, collection: Collection) -> &[Feature] {
        match collection {
            Collection::Parcels => self.parcels.as_slice(),
            Collection::Rights => self.rights.as_slice(),
            Collection::Restrictions => self.restrictions.as_slice(),
            _ => &[],
        }
    }
}
