//! What the values of members are read as.

ghost use Rattle.std.specs.Prelude.{◌≡◌, ◌≢◌, MatchOption};
ghost use Rattle.serde_json.specs.Data.{Data, no_items, item};
ghost use Rattle.serde_json.specs.View.{items_view, view};
ghost use Rattle.cad_commands.specs.Reading.{IsRead, IsReadAs};
ghost use Rattle.cad_commands.specs.Values.{IsPairOf, IsWholeOf};

use crate::command_error::CommandError;
use cad_day::Day;
use cad_shape::Point;
use cad_versions::{ObjectId, Share, Words};
use serde_json::Value;
use std::alloc::Global;
use std::rc::Rc;

/// What is said by the value of a member.
pub trait FromValue: Sized {
    ghost use Rattle.serde_json.specs.Data.{Data};
    ghost use Rattle.serde_json.specs.View.{view};
    ghost use Rattle.cad_commands.specs.Reading.{IsRead};

    // The value says it.
    ghost said_by: { Data → Self → Type 0 };

    fn from_value(alloc: Global, value: &Value) -> Result<Self, CommandError>
        ensures { IsRead (said_by (view value.now)) result };
}

impl FromValue for Words {
    ghost use Rattle.cad_commands.specs.Values.{IsWordsOf};

    ghost said_by = { IsWordsOf };

    fn from_value(alloc: Global, value: &Value) -> Result<Words, CommandError> {
        let text = value.as_str().ok_or(CommandError::NotACommand)?;
        let text = Rc::new(alloc, String::from_str(alloc, text)?)?;
        match Words::new(text) {
            Ok(words) => Ok(words),
            Err(_) => Err(CommandError::NotACommand),
        }
    }
}

impl FromValue for bool {
    ghost use Rattle.cad_commands.specs.Values.{IsFlagOf};

    ghost said_by = { IsFlagOf };

    fn from_value(_alloc: Global, value: &Value) -> Result<bool, CommandError> {
        value.as_bool().ok_or(CommandError::NotACommand)
    }
}

impl FromValue for u32 {
    ghost use Rattle.cad_commands.specs.Values.{IsWholeOf};

    ghost said_by = { IsWholeOf };

    fn from_value(_alloc: Global, value: &Value) -> Result<u32, CommandError> {
        whole(value)
    }
}

impl FromValue for ObjectId {
    ghost use Rattle.cad_commands.specs.Values.{IsObjectOf};

    ghost said_by = { IsObjectOf };

    fn from_value(_alloc: Global, value: &Value) -> Result<ObjectId, CommandError> {
        let number = whole(value)?;
        ObjectId::new(number).ok_or(CommandError::NotACommand)
    }
}

impl FromValue for Day {
    ghost use Rattle.cad_commands.specs.Values.{IsDayOf};

    ghost said_by = { IsDayOf };

    fn from_value(_alloc: Global, value: &Value) -> Result<Day, CommandError> {
        let text = value.as_str().ok_or(CommandError::NotACommand)?;
        Day::read(text).ok_or(CommandError::NotACommand)
    }
}

impl FromValue for Share {
    ghost use Rattle.cad_commands.specs.Values.{IsShareOf};

    ghost said_by = { IsShareOf };

    /// A fraction, as `[num,den]`.
    fn from_value(_alloc: Global, value: &Value) -> Result<Share, CommandError> {
        let (num, den) = pair(value)?;
        let num = whole(num)?;
        let den = whole(den)?;
        Share::new(num, den).ok_or(CommandError::NotACommand)
    }
}

impl FromValue for Point {
    ghost use Rattle.cad_commands.specs.Values.{IsPointOf};

    ghost said_by = { IsPointOf };

    /// A point, as `[x,y]`.
    fn from_value(_alloc: Global, value: &Value) -> Result<Point, CommandError> {
        let (x, y) = pair(value)?;
        let x = x.as_i64().ok_or(CommandError::NotACommand)?;
        let y = y.as_i64().ok_or(CommandError::NotACommand)?;
        Point::new(x, y).ok_or(CommandError::NotACommand)
    }
}

/// A whole number from 0 to 4,294,967,295, written without a fraction or an exponent.
fn whole(value: &Value) -> Result<u32, CommandError>
    ensures { IsRead (IsWholeOf (view value.now)) result }
{
    let number = value.as_u64().ok_or(CommandError::NotACommand)?;
    u32::try_from(number).map_err(|_| CommandError::NotACommand)
}

/// The two values of a list of two.
fn pair(value: &Value) -> Result<(&Value, &Value), CommandError>
    ensures { IsReadAs {X = Data × Data} (λ pair. (view pair.0.now, view pair.1.now)) (λ pair. IsPairOf (view value.now) pair.0 pair.1) result }
{
    let list = value.as_array().ok_or(CommandError::NotACommand)?;
    two(list).ok_or(CommandError::NotACommand)
}

fn two(list: &[Value]) -> Option<(&Value, &Value)>
    ensures { MatchOption result
        ((first : Data) (second : Data) → items_view list.now ≢ item first (item second no_items))
        (λ pair. items_view list.now ≡ item (view pair.0.now) (item (view pair.1.now) no_items)) }
{
    match list {
        [first, second] => Some((first, second)),
        _ => None,
    }
}
