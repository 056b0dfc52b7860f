//! Moments as a log writes them.

ghost use Rattle.cadastred_run.specs.inner.Printable.{StaysPrintable};

use crate::printable::push_all;
use cad_day::Day;
use std::alloc::{AllocError, Global};

/// The seconds of a day.
const DAY: u64 = 86_400;

/// Appends the moment so many seconds after 1970-01-01T00:00:00Z, as `YYYY-MM-DDTHH:MM:SSZ` (RFC 3339), or `-` if its year has more than
/// four digits.
pub(crate) fn push_moment(alloc: Global, text: &mut Vec<u8>, seconds: u64) -> Result<(), AllocError>
    ensures { StaysPrintable text.old.items text.new.items }
{
    let Some(day) = day_of(seconds / DAY) else {
        return push_all(text, b"-");
    };
    let rest = seconds % DAY;
    let (hour, minute, second) = (rest / 3600, rest / 60 % 60, rest % 60);
    let time = format!(in alloc; "T{hour:02}:{minute:02}:{second:02}Z")?;
    push_all(text, &day.bytes())?;
    push_all(text, time.as_bytes())
}

/// The day so many days after 1970-01-01.
fn day_of(days: u64) -> Option<Day> {
    Day::new(i32::try_from(days).ok()?)
}
