//! Values as the cells of a row.

ghost use Rattle.std.specs.Prelude.{◌≡◌, pos};
ghost use Rattle.std.specs.Option.{option_copied, option_map};
ghost use Rattle.sqlite_value.specs.declared.value.Value.TheVariants.{Int, Text, Blob};
ghost use Rattle.sqlite_typed.specs.Columns.{or_null};
ghost use Rattle.sqlite_value.specs.Value.{owned};
ghost use Rattle.sqlite.specs.Values.{bound_value};
ghost use Rattle.cad_day.specs.Days.{number_of};
ghost use Rattle.cad_versions.specs.Objects.{object_number};
ghost use Rattle.cad_versions.specs.Texts.{bytes_of};
ghost use Rattle.cad_versions.specs.Fractions.{num_of, den_of};
ghost use Rattle.cad_register.specs.Rows.{flag_number, items_of, x_of, y_of};

use cad_day::Day;
use cad_shape::Point;
use cad_versions::{ObjectId, Share, Words};
use sqlite::types::ValueRef;

pub(crate) fn count_cell(n: u32) -> ValueRef<'static>
    ensures { bound_value (owned result) ≡ Int (pos n) }
{
    ValueRef::Int(i64::from(n))
}

pub(crate) fn count_or_null(n: Option<u32>) -> ValueRef<'static>
    ensures { bound_value (owned result) ≡ or_null (λ n. Int (pos n)) n }
{
    match n {
        Some(n) => count_cell(n),
        None => ValueRef::Null,
    }
}

pub(crate) fn day_cell(day: Day) -> ValueRef<'static>
    ensures { bound_value (owned result) ≡ Int (number_of day) }
{
    ValueRef::Int(i64::from(day.number()))
}

pub(crate) fn day_or_null(day: Option<Day>) -> ValueRef<'static>
    ensures { bound_value (owned result) ≡ or_null Int (option_map number_of day) }
{
    match day {
        Some(day) => day_cell(day),
        None => ValueRef::Null,
    }
}

pub(crate) fn object_or_null(object: Option<ObjectId>) -> ValueRef<'static>
    ensures { bound_value (owned result) ≡ or_null (λ n.
        Int (pos n)) (option_map object_number object) }
{
    match object {
        Some(object) => count_cell(object.number()),
        None => ValueRef::Null,
    }
}

pub(crate) fn words_or_null(words: Option<&Words>) -> ValueRef<'_>
    ensures { bound_value (owned result) ≡ or_null Text (option_map bytes_of (option_copied words.entry)) }
{
    match words {
        Some(words) => ValueRef::Text(words.as_str().as_bytes()),
        None => ValueRef::Null,
    }
}

pub(crate) fn flag_or_null(flag: Option<bool>) -> ValueRef<'static>
    ensures { bound_value (owned result) ≡ or_null (λ n.
        Int (pos n)) (option_map flag_number flag) }
{
    match flag {
        Some(true) => ValueRef::Int(1),
        Some(false) => ValueRef::Int(0),
        None => ValueRef::Null,
    }
}

pub(crate) fn bytes_or_null(bytes: &Option<Vec<u8>>) -> ValueRef<'_>
    ensures { bound_value (owned result) ≡ or_null Blob (option_map items_of bytes.now) }
{
    match bytes {
        Some(bytes) => ValueRef::Blob(bytes.as_slice()),
        None => ValueRef::Null,
    }
}

pub(crate) fn num_or_null(share: Option<Share>) -> ValueRef<'static>
    ensures { bound_value (owned result) ≡ or_null (λ n. Int (pos n)) (option_map num_of share) }
{
    match share {
        Some(share) => count_cell(share.num()),
        None => ValueRef::Null,
    }
}

pub(crate) fn den_or_null(share: Option<Share>) -> ValueRef<'static>
    ensures { bound_value (owned result) ≡ or_null (λ n. Int (pos n)) (option_map den_of share) }
{
    match share {
        Some(share) => count_cell(share.den()),
        None => ValueRef::Null,
    }
}

pub(crate) fn x_or_null(point: Option<Point>) -> ValueRef<'static>
    ensures { bound_value (owned result) ≡ or_null Int (option_map x_of point) }
{
    match point {
        Some(point) => ValueRef::Int(point.x),
        None => ValueRef::Null,
    }
}

pub(crate) fn y_or_null(point: Option<Point>) -> ValueRef<'static>
    ensures { bound_value (owned result) ≡ or_null Int (option_map y_of point) }
{
    match point {
        Some(point) => ValueRef::Int(point.y),
        None => ValueRef::Null,
    }
}
