//! Commands of the land office, by what they say.

use crate::trouble::Trouble;
use cad_day::Day;
use cad_shape::{Point, Region, Ring};
use cad_versions::{Body, Command, ObjectId, Words};
use std::alloc::Global;
use std::rc::Rc;

/// What a command says. Days are written as `2000-01-01`.
#[derive(Clone, Copy)]
pub(crate) enum Order {
    /// A unit without a name is entered.
    EnterUnit {
        object: u32,
        first: &'static str,
    },
    /// A unit gets a further version, with a name or without one.
    AmendUnit {
        object: u32,
        first: &'static str,
        name: Option<&'static str>,
    },
    /// Parcel D-1 of unit 10 is entered, with a shape and a reference point.
    EnterParcel {
        object: u32,
        first: &'static str,
    },
    /// An object ends.
    Retire {
        object: u32,
        last: &'static str,
    },
}

fn object_id(number: u32) -> Result<ObjectId, Trouble> {
    match ObjectId::new(number) {
        Some(object) => Ok(object),
        None => Err(Trouble::Missing("object")),
    }
}

fn day(text: &str) -> Result<Day, Trouble> {
    match Day::read(text) {
        Some(day) => Ok(day),
        None => Err(Trouble::Missing("day")),
    }
}

fn words(alloc: Global, text: &str) -> Result<Words, Trouble> {
    let text = Rc::new(alloc, String::from_str(alloc, text)?)?;
    match Words::new(text) {
        Ok(words) => Ok(words),
        Err(_) => Err(Trouble::Missing("words")),
    }
}

fn unit(alloc: Global, name: Option<&str>) -> Result<Body, Trouble> {
    match name {
        Some(name) => Ok(Body::Unit {
            name: Some(words(alloc, name)?),
        }),
        None => Ok(Body::Unit { name: None }),
    }
}

/// A triangle.
fn region(alloc: Global) -> Result<Region, Trouble> {
    let mut corners = Vec::new(alloc);
    for (x, y) in [(50_000, 0), (60_000, 0), (60_000, 10_000)] {
        corners.push(Point { x, y })?;
    }
    match Ring::new(corners) {
        Ok(ring) => Ok(Region::of(alloc, ring)?),
        Err(_) => Err(Trouble::Missing("ring")),
    }
}

fn parcel(alloc: Global) -> Result<Body, Trouble> {
    Ok(Body::Parcel {
        unit: object_id(10)?,
        label: words(alloc, "D-1")?,
        area: Some(50),
        shape: Some(region(alloc)?),
        spot: Point::new(55_000, 2000),
    })
}

impl Order {
    /// What the command does, in words.
    pub(crate) fn text(self) -> &'static str {
        match self {
            Order::EnterUnit { .. } => "enter a unit",
            Order::AmendUnit { .. } => "amend a unit",
            Order::EnterParcel { .. } => "enter a parcel",
            Order::Retire { .. } => "retire an object",
        }
    }

    /// The command.
    pub(crate) fn command(self, alloc: Global) -> Result<Command, Trouble> {
        match self {
            Order::EnterUnit { object, first } => Ok(Command::Enter {
                object: object_id(object)?,
                first: day(first)?,
                body: Body::Unit { name: None },
            }),
            Order::AmendUnit {
                object,
                first,
                name,
            } => Ok(Command::Amend {
                object: object_id(object)?,
                first: day(first)?,
                body: unit(alloc, name)?,
            }),
            Order::EnterParcel { object, first } => Ok(Command::Enter {
                object: object_id(object)?,
                first: day(first)?,
                body: parcel(alloc)?,
            }),
            Order::Retire { object, last } => Ok(Command::Retire {
                object: object_id(object)?,
                last: day(last)?,
            }),
        }
    }
}
