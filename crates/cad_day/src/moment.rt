//! Moments and intervals as they are asked for.

ghost use Rattle.std.specs.Prelude.{◌≡◌, option_map};
ghost use Rattle.std.specs.Result.{result_map_both};
ghost use Rattle.cad_day.specs.Days.{number_of};
ghost use Rattle.cad_day.specs.Moments as spec;
ghost use Rattle.cad_day.specs.Moments.{utc_day, instant_day, moment_asked, end_asked, answer_of};

use crate::{DatetimeFault, Day, Interval};
use jiff_core::Timestamp;
use jiff_fmt::temporal;

/// The days that a text asks for: those of one moment, or from one moment to another if the text has a `/` (the first one separates them).
/// In that case an empty part or `..` is an open end.
///
/// A moment is a day `YYYY-MM-DD`, or a text without `[` that jiff reads as an instant; its day is
/// that of UTC. So `2010-01-01T00:30:00+01:00` asks for 2009-12-31.
pub fn asked(text: &str) -> Result<Interval, DatetimeFault>
    ensures { answer_of result ≡ spec.asked text.now }
{
    match text.split_once('/') {
        Some((from, to)) => between(from, to),
        None => one_moment(text),
    }
}

fn between(from: &str, to: &str) -> Result<Interval, DatetimeFault>
    ensures { answer_of result ≡ spec.between (end_asked from.now) (end_asked to.now) }
{
    let from = end(from)?;
    let to = end(to)?;
    in_order(from, to)
}

fn one_moment(text: &str) -> Result<Interval, DatetimeFault>
    ensures { answer_of result ≡ spec.one_moment text.now }
{
    let day = moment(text)?;
    in_order(Some(day), Some(day))
}

fn in_order(from: Option<Day>, to: Option<Day>) -> Result<Interval, DatetimeFault>
    ensures { answer_of result ≡ spec.in_order (option_map number_of from) (option_map number_of to) }
{
    Interval::new(from, to).ok_or(DatetimeFault::EndsTurned)
}

fn end(text: &str) -> Result<Option<Day>, DatetimeFault>
    ensures { result_map_both (option_map number_of) (λ fault. fault) result ≡ end_asked text.now }
{
    if text.is_empty() || text == ".." {
        return Ok(None);
    }
    let day = moment(text)?;
    Ok(Some(day))
}

fn moment(text: &str) -> Result<Day, DatetimeFault>
    ensures { result_map_both number_of (λ fault. fault) result ≡ moment_asked text.now }
{
    match Day::read(text) {
        Some(day) => Ok(day),
        None => day_of_instant(text).ok_or(DatetimeFault::NotADate),
    }
}

fn day_of_instant(text: &str) -> Option<Day>
    ensures { option_map number_of result ≡ instant_day text.now }
{
    if text.as_bytes().contains(&b'[') {
        return None;
    }
    let instant = temporal::parse_timestamp(text.as_bytes()).ok()?;
    day_in_utc(instant)
}

fn day_in_utc(instant: Timestamp) -> Option<Day>
    ensures { option_map number_of result ≡ utc_day instant.nanosecond }
{
    let number = instant.nanosecond.div_euclid(86_400_000_000_000);
    Day::new(number as i32)
}
