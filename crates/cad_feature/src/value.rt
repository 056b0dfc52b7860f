//! Values of properties.

use cad_day::{Day, Interval};
use cad_shape::{Point, Region, ShapeRef};
use std::alloc::{AllocError, Global};
use std::rc::Rc;

/// A value of one property. It takes 16 bytes: what needs more is stored outside it.
#[derive(Debug, Drop)]
pub enum Value {
    /// There is no value.
    Null,
    /// Characters, which values of one text share.
    Text(Rc<String>),
    /// A whole number.
    Whole(i64),
    /// True or false.
    Flag(bool),
    /// A day of the calendar.
    Day(Day),
    /// The days from one to another; an end may be open.
    Span(Box<Interval>),
    /// A point of the register's plane.
    Spot(Box<Point>),
    /// A region of the register's plane.
    Area(Region),
}

impl Value {
    ghost use Rattle.std.specs.Prelude.{◌≡◌, IfOk, option_map};
    ghost use Rattle.cad_shape.specs.Shapes.{lent_shape};
    ghost use Rattle.cad_feature.specs.Values.{datum_of, whole_in, day_in, span_in, shape_in};

    /// A copy. A text or a region is shared. An error means out of memory.
    pub fn copy(&self, alloc: Global) -> Result<Value, AllocError>
        ensures { IfOk result (λ copy. datum_of copy ≡ datum_of self.now) }
    {
        match self {
            Value::Null => Ok(Value::Null),
            Value::Text(text) => {
                let text = text.clone()?;
                Ok(Value::Text(text))
            }
            Value::Whole(number) => Ok(Value::Whole(*number)),
            Value::Flag(flag) => Ok(Value::Flag(*flag)),
            Value::Day(day) => Ok(Value::Day(*day)),
            Value::Span(days) => {
                let days = Box::new(alloc, **days)?;
                Ok(Value::Span(days))
            }
            Value::Spot(point) => {
                let point = Box::new(alloc, **point)?;
                Ok(Value::Spot(point))
            }
            Value::Area(region) => {
                let region = region.copy()?;
                Ok(Value::Area(region))
            }
        }
    }

    /// The whole number, if it is one.
    pub fn as_whole(&self) -> Option<i64>
        ensures { result ≡ whole_in (datum_of self.now) }
    {
        match self {
            Value::Whole(number) => Some(*number),
            _ => None,
        }
    }

    /// The day, if it is one.
    pub fn as_day(&self) -> Option<Day>
        ensures { result ≡ day_in (datum_of self.now) }
    {
        match self {
            Value::Day(day) => Some(*day),
            _ => None,
        }
    }

    /// The days from one to another, if it is an interval.
    pub fn as_span(&self) -> Option<Interval>
        ensures { result ≡ span_in (datum_of self.now) }
    {
        match self {
            Value::Span(days) => Some(**days),
            _ => None,
        }
    }

    /// The point or the region, if it is one. It is lent.
    pub fn as_shape(&self) -> Option<ShapeRef<'_>>
        ensures { option_map lent_shape result ≡ shape_in (datum_of self.now) }
    {
        match self {
            Value::Spot(point) => Some(ShapeRef::Spot(**point)),
            Value::Area(region) => Some(ShapeRef::Area(region)),
            _ => None,
        }
    }
}
