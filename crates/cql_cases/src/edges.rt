//! Ranges as they are printed.

use cad_feature::{Edge, Range, Scalar};
use cad_schema::{Collection, schema};
use std::alloc::AllocError;

fn put_scalar(scalar: &Scalar, line: &mut String) -> Result<(), AllocError> {
    match scalar {
        Scalar::Text(text) => write!(line, "'{}'", text.as_str()),
        Scalar::Whole(number) => write!(line, "{number}"),
        Scalar::Day(day) => day.put(line),
    }
}

fn put_edge(edge: &Edge, line: &mut String) -> Result<(), AllocError> {
    let (word, scalar) = match edge {
        Edge::Free => return line.push_str(" free"),
        Edge::With(scalar) => (" with ", scalar),
        Edge::Without(scalar) => (" without ", scalar),
    };
    line.push_str(word)?;
    put_scalar(scalar, line)
}

/// Appends the name of the range's property and the two ends.
pub fn put_range(
    collection: Collection,
    range: &Range,
    line: &mut String,
) -> Result<(), AllocError> {
    let properties = schema(collection);
    if range.property < properties.len() {
        line.push_str(properties[range.property].name)?;
    }
    put_edge(&range.low, line)?;
    put_edge(&range.high, line)
}
