//! Boxes in texts.

ghost use Rattle.std.specs.Prelude.{◌≡◌, ◌≤◌, IfSome, option_map, option_copied};
ghost use Rattle.std.specs.List.{list_all};
ghost use Rattle.cad_shape.specs.Coordinates.{IsCoordinate, farthest};
ghost use Rattle.cad_parameters.specs.Parts.{is_byte, parted};
ghost use Rattle.cad_parameters.specs.Boxes as spec;
ghost use Rattle.cad_parameters.specs.Boxes.{magnitude_of, coordinate_of, box_numbers, unless_turned, four_numbers, box_of};

use crate::parts::part;
use cad_io::number;
use cad_shape::{Bounds, FARTHEST};

/// The box of four numbers with commas: x_min,y_min,x_max,y_max.
pub(crate) fn bounds_in(text: &str) -> Option<Bounds>
    ensures { option_map box_numbers result ≡ box_of text.now }
{
    let (x_min, others) = part(text.as_bytes(), b',')?;
    let (y_min, others) = part(others, b',')?;
    let (x_max, y_max) = part(others, b',')?;
    bounds_between(x_min, y_min, x_max, y_max)
}

fn bounds_between(x_min: &[u8], y_min: &[u8], x_max: &[u8], y_max: &[u8]) -> Option<Bounds>
    ensures { option_map box_numbers result ≡ four_numbers x_min.now y_min.now x_max.now y_max.now }
{
    let x_min = coordinate(x_min)?;
    let y_min = coordinate(y_min)?;
    let x_max = coordinate(x_max)?;
    let y_max = coordinate(y_max)?;
    bounds_unless_turned(x_min, y_min, x_max, y_max)
}

fn bounds_unless_turned(x_min: i64, y_min: i64, x_max: i64, y_max: i64) -> Option<Bounds>
    requires lower { IsCoordinate x_min × IsCoordinate y_min }
    requires upper { IsCoordinate x_max × IsCoordinate y_max }
    ensures { option_map box_numbers result ≡ unless_turned (x_min, y_min, x_max, y_max) }
{
    Bounds::new(x_min, y_min, x_max, y_max)
}

fn coordinate(text: &[u8]) -> Option<i64>
    ensures value { result ≡ coordinate_of text.now }
    ensures in_range { IfSome result IsCoordinate }
{
    if !text.is_empty() && text[0] == b'-' {
        let magnitude = magnitude(&text[1..])?;
        Some(-(magnitude as i64))
    } else {
        let magnitude = magnitude(text)?;
        Some(magnitude as i64)
    }
}

fn magnitude(text: &[u8]) -> Option<u64>
    ensures value { result ≡ magnitude_of text.now }
    ensures bound { IfSome result (λ n. n ≤ farthest) }
{
    let number = number(whole_part(text)?)?;
    if number <= FARTHEST as u64 {
        Some(number)
    } else {
        None
    }
}

/// The text before a point that has only zeros after it, or the whole text if it has no point.
fn whole_part(text: &[u8]) -> Option<&[u8]>
    ensures { option_copied result ≡ spec.whole_part text.now (parted 46 text.now) }
{
    match part(text, b'.') {
        Some((whole, fraction)) => {
            if are_zeros(fraction) {
                Some(whole)
            } else {
                None
            }
        }
        None => Some(text),
    }
}

fn are_zeros(digits: &[u8]) -> bool
    ensures { result ≡ list_all (is_byte 48) digits.now }
{
    digits.iter().all(|digit| *digit == b'0')
}
