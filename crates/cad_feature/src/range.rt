//! Ranges of the values of a property.

use cad_day::Day;
use std::alloc::{AllocError, Global};

/// A value of a kind that has an order.
#[derive(Debug, Drop)]
pub enum Scalar {
    /// Characters, in the order of code points.
    Text(String),
    /// A whole number.
    Whole(i64),
    /// A day of the calendar.
    Day(Day),
}

/// An end of a range.
#[derive(Debug, Drop)]
pub enum Edge {
    /// No end on this side.
    Free,
    /// The value is the last one inside.
    With(Scalar),
    /// The value is the first one outside.
    Without(Scalar),
}

/// The values of one property from one end to another.
#[derive(Debug, Drop)]
pub struct Range {
    /// The property's place in the schema.
    pub property: usize,
    /// Where the range begins.
    pub low: Edge,
    /// Where it ends.
    pub high: Edge,
}

impl Scalar {
    ghost use Rattle.std.specs.Prelude.{◌≡◌, IfOk};
    ghost use Rattle.cad_feature.specs.Limits.{scalar_datum};

    /// A copy of the value.
    pub fn copy(&self, alloc: Global) -> Result<Scalar, AllocError>
        ensures { IfOk result (λ scalar. scalar_datum scalar ≡ scalar_datum self.now) }
    {
        match self {
            Scalar::Text(text) => {
                let text = String::from_str(alloc, text.as_str())?;
                Ok(Scalar::Text(text))
            }
            Scalar::Whole(number) => Ok(Scalar::Whole(*number)),
            Scalar::Day(day) => Ok(Scalar::Day(*day)),
        }
    }
}

impl Edge {
    ghost use Rattle.std.specs.Prelude.{◌≡◌, IfOk};
    ghost use Rattle.cad_feature.specs.Limits.{limit_of};

    /// A copy of the end.
    pub fn copy(&self, alloc: Global) -> Result<Edge, AllocError>
        ensures { IfOk result (λ edge. limit_of edge ≡ limit_of self.now) }
    {
        match self {
            Edge::Free => Ok(Edge::Free),
            Edge::With(scalar) => {
                let scalar = scalar.copy(alloc)?;
                Ok(Edge::With(scalar))
            }
            Edge::Without(scalar) => {
                let scalar = scalar.copy(alloc)?;
                Ok(Edge::Without(scalar))
            }
        }
    }
}
