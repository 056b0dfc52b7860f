//! Columns of a row as the values of the register.

ghost use Rattle.std.specs.Prelude.{◌≡◌, ◌<◌, ◌+◌, ◌^◌, ◌↔◌, pos, IsTrue};
ghost use Rattle.std.specs.Option.{ForSome, option_map};
ghost use Rattle.sqlite_value.specs.declared.value.Value.TheVariants.{Null, Int, Text};
ghost use Rattle.sqlite_value.specs.Order.{column};
ghost use Rattle.sqlite_value.specs.Value.{owned};
ghost use Rattle.sqlite_typed.specs.Columns.{or_null};
ghost use Rattle.cad_day.specs.Days.{number_of};
ghost use Rattle.cad_versions.specs.Class.{class_number};
ghost use Rattle.cad_versions.specs.Objects.{object_number};
ghost use Rattle.cad_versions.specs.Texts.{bytes_of};
ghost use Rattle.cad_versions.specs.Fractions.{num_of, den_of};
ghost use Rattle.cad_register.specs.Damage.{number_in};
ghost use Rattle.cad_register.specs.inner.Reading.{Reads};
ghost use Rattle.cad_register.specs.Parts.{HasShape};
ghost use Rattle.cad_register.specs.Rows.{flag_number, x_of, y_of};

use cad_day::Day;
use cad_shape::{Point, Region};
use cad_versions::{Class, ObjectId, Share, Words, read_shape};
use sqlite::Row;
use sqlite::types::ValueRef;
use std::alloc::{AllocError, AllocFailed, Global};
use std::rc::Rc;

/// Why a row is not read.
#[derive(Clone, Copy, Debug, PartialEq, Eq)]
pub(crate) enum ReadFault {
    /// The row is not the row of a version.
    Damaged,
    /// Out of memory.
    Memory,
}

impl From<AllocError> for ReadFault {
    ghost use Rattle.std.specs.Prelude.{◌≡◌};
    ghost use Rattle.cad_register.specs.declared.columns.ReadFault.TheVariants.{Memory};

    ghost from_gives = { λ _ e. e ≡ Memory };

    fn from(_: AllocError) -> ReadFault {
        ReadFault::Memory
    }
}

impl<T: Drop> From<AllocFailed<T>> for ReadFault {
    ghost use Rattle.std.specs.Prelude.{◌≡◌};
    ghost use Rattle.cad_register.specs.declared.columns.ReadFault.TheVariants.{Memory};

    ghost from_gives = { λ _ e. e ≡ Memory };

    fn from(_: AllocFailed<T>) -> ReadFault {
        ReadFault::Memory
    }
}

/// The value in a column, or NULL past the end.
pub(crate) fn cell(row: &Row, at: usize) -> ValueRef<'_>
    ensures { owned result ≡ column row.now at }
{
    match row.get_ref(at) {
        Ok(value) => value,
        Err(_) => ValueRef::Null,
    }
}

pub(crate) fn is_null(row: &Row, at: usize) -> bool
    ensures { IsTrue result ↔ (column row.now at ≡ Null) }
{
    matches!(cell(row, at), ValueRef::Null)
}

pub(crate) fn number_at(row: &Row, at: usize) -> Result<i64, ReadFault>
    ensures { Reads result (λ n. column row.now at ≡ Int n) }
{
    match cell(row, at) {
        ValueRef::Int(n) => Ok(n),
        _ => Err(ReadFault::Damaged),
    }
}

pub(crate) fn count_at(row: &Row, at: usize) -> Result<u32, ReadFault>
    ensures { Reads result (λ n. (column row.now at ≡ Int (pos n)) × (n < 2 ^ 32)) }
{
    match cell(row, at) {
        ValueRef::Int(n) => u32::try_from(n).ok().ok_or(ReadFault::Damaged),
        _ => Err(ReadFault::Damaged),
    }
}

pub(crate) fn day_at(row: &Row, at: usize) -> Result<Day, ReadFault>
    ensures { Reads result (λ day. column row.now at ≡ Int (number_of day)) }
{
    match i32::try_from(number_at(row, at)?) {
        Ok(n) => Day::new(n).ok_or(ReadFault::Damaged),
        Err(_) => Err(ReadFault::Damaged),
    }
}

pub(crate) fn class_at(row: &Row, at: usize) -> Result<Class, ReadFault>
    ensures { Reads result (λ class. column row.now at ≡ Int (pos (class_number class))) }
{
    Class::from_number(number_at(row, at)?).ok_or(ReadFault::Damaged)
}

pub(crate) fn object_at(row: &Row, at: usize) -> Result<ObjectId, ReadFault>
    ensures { Reads result (λ object. column row.now at ≡ Int (pos (object_number object))) }
{
    ObjectId::new(count_at(row, at)?).ok_or(ReadFault::Damaged)
}

fn words(alloc: Global, bytes: &[u8]) -> Result<Words, ReadFault>
    ensures { Reads result (λ words. bytes.now ≡ bytes_of words) }
{
    let Ok(text) = std::str::from_utf8(bytes) else {
        return Err(ReadFault::Damaged);
    };
    let text = Rc::new(alloc, String::from_str(alloc, text)?)?;
    Words::new(text).ok().ok_or(ReadFault::Damaged)
}

pub(crate) fn words_at(alloc: Global, row: &Row, at: usize) -> Result<Option<Words>, ReadFault>
    ensures { Reads result (λ words. column row.now at ≡ or_null Text (option_map bytes_of words)) }
{
    match cell(row, at) {
        ValueRef::Null => Ok(None),
        ValueRef::Text(bytes) => {
            let words = words(alloc, bytes)?;
            Ok(Some(words))
        }
        _ => Err(ReadFault::Damaged),
    }
}

pub(crate) fn optional_count_at(row: &Row, at: usize) -> Result<Option<u32>, ReadFault>
    ensures { Reads result (λ count. (column row.now at ≡ or_null (λ n. Int (pos n)) count) ×
        ForSome count (λ n. n < 2 ^ 32)) }
{
    match cell(row, at) {
        ValueRef::Null => Ok(None),
        _ => {
            let count = count_at(row, at)?;
            Ok(Some(count))
        }
    }
}

pub(crate) fn named_object_at(row: &Row, at: usize) -> Result<Option<ObjectId>, ReadFault>
    ensures { Reads result (λ object. column row.now at ≡ or_null (λ n.
        Int (pos n)) (option_map object_number object)) }
{
    match cell(row, at) {
        ValueRef::Null => Ok(None),
        _ => {
            let object = object_at(row, at)?;
            Ok(Some(object))
        }
    }
}

pub(crate) fn last_day_at(row: &Row, at: usize) -> Result<Option<Day>, ReadFault>
    ensures { Reads result (λ day. column row.now at ≡ or_null Int (option_map number_of day)) }
{
    match cell(row, at) {
        ValueRef::Null => Ok(None),
        _ => {
            let day = day_at(row, at)?;
            Ok(Some(day))
        }
    }
}

pub(crate) fn flag_at(row: &Row, at: usize) -> Result<Option<bool>, ReadFault>
    ensures { Reads result (λ flag. column row.now at ≡ or_null (λ n.
        Int (pos n)) (option_map flag_number flag)) }
{
    match cell(row, at) {
        ValueRef::Null => Ok(None),
        ValueRef::Int(0) => Ok(Some(false)),
        ValueRef::Int(1) => Ok(Some(true)),
        _ => Err(ReadFault::Damaged),
    }
}

pub(crate) fn shape_at(alloc: Global, row: &Row, at: usize) -> Result<Option<Region>, ReadFault>
    ensures { Reads result
        (λ shape. HasShape (column row.now at) shape) }
{
    match cell(row, at) {
        ValueRef::Null => Ok(None),
        ValueRef::Blob(bytes) => match read_shape(alloc, bytes)? {
            Some(region) => Ok(Some(region)),
            None => Err(ReadFault::Damaged),
        },
        _ => Err(ReadFault::Damaged),
    }
}

/// A share in two columns, which are NULL together.
pub(crate) fn share_at(row: &Row, at: usize) -> Result<Option<Share>, ReadFault>
    requires { at < 100 }
    ensures { Reads result (λ share. (column row.now at ≡ or_null (λ n.
        Int (pos n)) (option_map num_of share)) × (column row.now (at + 1) ≡ or_null (λ n.
        Int (pos n)) (option_map den_of share))) }
{
    if is_null(row, at) && is_null(row, at + 1) {
        return Ok(None);
    }
    let num = count_at(row, at)?;
    let den = count_at(row, at + 1)?;
    match Share::new(num, den) {
        Some(share) => Ok(Some(share)),
        None => Err(ReadFault::Damaged),
    }
}

/// A point in two columns, which are NULL together.
pub(crate) fn spot_at(row: &Row, at: usize) -> Result<Option<Point>, ReadFault>
    requires { at < 100 }
    ensures { Reads result (λ spot. (column row.now at ≡ or_null Int (option_map x_of spot)) ×
        (column row.now (at + 1) ≡ or_null Int (option_map y_of spot))) }
{
    match (cell(row, at), cell(row, at + 1)) {
        (ValueRef::Null, ValueRef::Null) => Ok(None),
        (ValueRef::Int(x), ValueRef::Int(y)) => match Point::new(x, y) {
            Some(point) => Ok(Some(point)),
            None => Err(ReadFault::Damaged),
        },
        _ => Err(ReadFault::Damaged),
    }
}

/// The number in a column, or 0 if there is no number.
pub(crate) fn number_or_zero(row: &Row, at: usize) -> i64
    ensures { result ≡ number_in (column row.now at) }
{
    match cell(row, at) {
        ValueRef::Int(n) => n,
        _ => 0,
    }
}
