//! Ranges as they are printed.

use cad_feature::{Edge, Range, Scalar};
use cad_schema::{Collection, schema};
use std::alloc::AllocError;

fn put_scalar(scalar: &Scalar, line: &mut String) -> Result<(), AllocError> {
    match scalar {
        Scalar::Text(text) => {
            line.push_str("'")?;
            line.push_str(text.as_str())?;
            line.push_str("'")
        }
        Scalar::Whole(number) => write!(line, "{number}"),
        Scalar::Day(day) => day.put(line),
    }
}

fn put_edge(edge: &Edge, line: &mut String) -> Result<(), AllocError> {
    match edge {
        Edge::Free => line.push_str(" free"),
        Edge::With(scalar) => {
            line.push_str(" with ")?;
            put_scalar(scalar, line)
        }
        Edge::Without(scalar) => {
            line.push_str(" without ")?;
            put_scalar(scalar, line)
        }
    }
}

/// Appends the name of the range's property and the two ends.
pub fn put_range(
    collection: Collection,
    range: &Range,
    line: &mut String,
) -> Result<(), AllocError> {
    let properties = schema(collection);
    if range.property < properties.len() {
        line.push_str(properties[range.property].name)?;
    }
    put_edge(&range.low, line)?;
    put_edge(&range.high, line)
}
