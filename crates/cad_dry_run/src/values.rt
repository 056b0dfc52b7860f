//! What is wrong with a value.

ghost use Rattle.std.specs.Prelude.{◌≡◌, ◌≢◌, ℕ, ℤ, MatchOption, MatchResult, IfErr};
ghost use Rattle.serde_json.specs.Data.{Data, no_items, item};
ghost use Rattle.serde_json.specs.View.{items_view, view};
ghost use Rattle.cad_commands.specs.Values.{IsPairOf, IsPointOf, natural_in};
ghost use Rattle.cad_dry_run.specs.ValueFaults.{IsPairBy, IsWrong, integer_in};

use crate::cause::ValueFault;
use crate::member_name::MemberName;
use cad_day::Day;
use cad_shape::Point;
use cad_versions::ObjectId;
use serde_json::Value;

/// The most bytes of a text.
const LONGEST_TEXT: usize = 200;

/// The largest `den` of a share.
const MOST_PARTS: u64 = 1_000_000_000;

/// Checks the value of a member, apart from `shape` and `holes`.
pub(crate) fn check_value(name: MemberName, value: &Value) -> Result<(), ValueFault>
    ensures { IfErr result (IsWrong (view value.now)) }
{
    match name {
        MemberName::Do => check_operation(value),
        MemberName::Object | MemberName::Unit | MemberName::Party => check_object_number(value),
        MemberName::First | MemberName::Last => check_day(value),
        MemberName::Name | MemberName::Code | MemberName::Label => check_text(value),
        MemberName::Area => check_area(value),
        MemberName::Share => check_share(value),
        MemberName::Required => check_flag(value),
        MemberName::Spot => check_point(value),
        MemberName::Shape | MemberName::Holes => Ok(()),
    }
}

fn check_operation(value: &Value) -> Result<(), ValueFault>
    ensures { IfErr result (IsWrong (view value.now)) }
{
    match value.as_str() {
        Some("enter") => Ok(()),
        Some("amend") => Ok(()),
        Some("retire") => Ok(()),
        _ => Err(ValueFault::NotAnOperation),
    }
}

fn check_object_number(value: &Value) -> Result<(), ValueFault>
    ensures { IfErr result (IsWrong (view value.now)) }
{
    let Some(number) = value.as_u64() else {
        return Err(ValueFault::NotANumber);
    };
    let Ok(small) = u32::try_from(number) else {
        return Err(ValueFault::NotAnObjectNumber);
    };
    match ObjectId::new(small) {
        Some(_) => Ok(()),
        None => Err(ValueFault::NotAnObjectNumber),
    }
}

fn check_area(value: &Value) -> Result<(), ValueFault>
    ensures { IfErr result (IsWrong (view value.now)) }
{
    let Some(number) = value.as_u64() else {
        return Err(ValueFault::NotANumber);
    };
    if number <= u64::from(u32::MAX) {
        Ok(())
    } else {
        Err(ValueFault::TooLarge)
    }
}

fn check_day(value: &Value) -> Result<(), ValueFault>
    ensures { IfErr result (IsWrong (view value.now)) }
{
    let Some(text) = value.as_str() else {
        return Err(ValueFault::NotADay);
    };
    match Day::read(text) {
        Some(_) => Ok(()),
        None => Err(ValueFault::NotADay),
    }
}

fn check_text(value: &Value) -> Result<(), ValueFault>
    ensures { IfErr result (IsWrong (view value.now)) }
{
    let Some(text) = value.as_str() else {
        return Err(ValueFault::NotAText);
    };
    if text.is_empty() {
        return Err(ValueFault::Empty);
    }
    if text.len() > LONGEST_TEXT {
        return Err(ValueFault::TooLong);
    }
    if text.as_bytes().contains(&0) {
        return Err(ValueFault::HasNul);
    }
    Ok(())
}

fn check_flag(value: &Value) -> Result<(), ValueFault>
    ensures { IfErr result (IsWrong (view value.now)) }
{
    match value.as_bool() {
        Some(_) => Ok(()),
        None => Err(ValueFault::NotAFlag),
    }
}

fn check_share(value: &Value) -> Result<(), ValueFault>
    ensures { IfErr result (IsWrong (view value.now)) }
{
    let Some((num, den)) = two_numbers(value) else {
        return Err(ValueFault::NotAPair);
    };
    if 1 <= num && num <= den && den <= MOST_PARTS {
        Ok(())
    } else {
        Err(ValueFault::NotAShare)
    }
}

fn check_point(value: &Value) -> Result<(), ValueFault>
    ensures { IfErr result (IsWrong (view value.now)) }
{
    match point(value) {
        Ok(_) => Ok(()),
        Err(fault) => Err(fault),
    }
}

/// A point, as `[x,y]`.
pub(crate) fn point(value: &Value) -> Result<Point, ValueFault>
    ensures { MatchResult result (IsPointOf (view value.now)) (IsWrong (view value.now)) }
{
    let Some((x, y)) = two_integers(value) else {
        return Err(ValueFault::NotAPoint);
    };
    match Point::new(x, y) {
        Some(point) => Ok(point),
        None => Err(ValueFault::TooFar),
    }
}

/// The numbers from 0 on of a list of two.
fn two_numbers(value: &Value) -> Option<(u64, u64)>
    ensures { MatchOption result
        ((m n : ℕ) → ¬ IsPairBy natural_in (view value.now) m n)
        (λ pair. IsPairBy natural_in (view value.now) pair.0 pair.1) }
{
    let Some((first, second)) = pair(value) else {
        return None;
    };
    let Some(num) = first.as_u64() else {
        return None;
    };
    let Some(den) = second.as_u64() else {
        return None;
    };
    Some((num, den))
}

/// The whole numbers of a list of two.
fn two_integers(value: &Value) -> Option<(i64, i64)>
    ensures { MatchOption result
        ((x y : ℤ) → ¬ IsPairBy integer_in (view value.now) x y)
        (λ pair. IsPairBy integer_in (view value.now) pair.0 pair.1) }
{
    let Some((first, second)) = pair(value) else {
        return None;
    };
    let Some(x) = first.as_i64() else {
        return None;
    };
    let Some(y) = second.as_i64() else {
        return None;
    };
    Some((x, y))
}

/// The two values of a list of two.
fn pair(value: &Value) -> Option<(&Value, &Value)>
    ensures { MatchOption result
        ((first second : Data) → ¬ IsPairOf (view value.now) first second)
        (λ pair. IsPairOf (view value.now) (view pair.0.now) (view pair.1.now)) }
{
    let Some(list) = value.as_array() else {
        return None;
    };
    two(list)
}

fn two(list: &[Value]) -> Option<(&Value, &Value)>
    ensures { MatchOption result
        ((first second : Data) → items_view list.now ≢ item first (item second no_items))
        (λ pair. items_view list.now ≡ item (view pair.0.now) (item (view pair.1.now) no_items)) }
{
    match list {
        [first, second] => Some((first, second)),
        _ => None,
    }
}
