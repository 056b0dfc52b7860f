//! Days as text: ISO 8601's calendar date in extended format.

ghost use Rattle.std.specs.Prelude.{◌≡◌, ◌+◌, ◌<◌, ◌++◌, false, length, pos, option_map, IfSome, MatchOption, OnOk, OnErr, string_bytes};
ghost use Rattle.jiff_core.specs.Calendar.{IsCivilDate, days_from_civil};
ghost use Rattle.cad_day.specs.Calendar.{is_date, IsDateOf};
ghost use Rattle.cad_day.specs.Days.{number_of};
ghost use Rattle.cad_day.specs.DayTexts as spec;
ghost use Rattle.cad_day.specs.DayTexts.{two_digits, day_of_date, day_named, date_text, day_text};

use crate::Day;
use jiff_core::civil::Date;
use std::alloc::AllocError;
use std::str;

impl Day {
    /// The day that the ten bytes `YYYY-MM-DD` name, if they name one.
    pub fn read(text: &str) -> Option<Day>
        ensures { option_map number_of result ≡ day_named text.now }
    {
        let text = text.as_bytes();
        if text.len() != 10 || text[4] != b'-' || text[7] != b'-' {
            return None;
        }
        let century = two_digits_at(text, 0)?;
        let year = two_digits_at(text, 2)?;
        let month = two_digits_at(text, 5)?;
        let date = two_digits_at(text, 8)?;
        day_of_date_at(u16::from(century) * 100 + u16::from(year), month, date)
    }

    /// Appends the ten bytes `YYYY-MM-DD` that name the day.
    pub fn put(self, text: &mut String) -> Result<(), AllocError>
        ensures appended { OnOk result (string_bytes text.new ≡ string_bytes text.old ++ day_text (number_of self)) }
        ensures refused { OnErr result (string_bytes text.new ≡ string_bytes text.old) }
    {
        let bytes = self.bytes();
        text.push_str(str::from_utf8(&bytes).unwrap())
    }

    /// The ten bytes `YYYY-MM-DD` that name the day.
    pub fn bytes(self) -> [u8; 10]
        ensures { result ≡ day_text (number_of self) }
    {
        let (year, month, date) = self.civil_date();
        spelt(year, month, date)
    }

    pub(crate) fn civil_date(self) -> (u16, u8, u8)
        ensures in_calendar { IsCivilDate (pos result.0) result.1 result.2 }
        ensures counted { number_of self ≡ days_from_civil (pos result.0) result.1 result.2 }
    {
        let date = Date::from_days_since_min((self.number() + 4_371_587) as u32);
        (date.year.unsigned_abs(), date.month, date.day)
    }
}

fn two_digits_at(text: &[u8], place: usize) -> Option<u8>
    requires { place + 1 < length text.now }
    ensures value { result ≡ two_digits text.now place }
    ensures below_hundred { IfSome result (λ n. n < 100) }
{
    let (tens, units) = (text[place], text[place + 1]);
    if tens.is_ascii_digit() && units.is_ascii_digit() {
        Some((tens - b'0') * 10 + (units - b'0'))
    } else {
        None
    }
}

fn day_of_date_at(year: u16, month: u8, date: u8) -> Option<Day>
    requires year { year < 10000 }
    requires month { month < 100 }
    requires date { date < 100 }
    ensures { option_map number_of result ≡ day_of_date year month date }
{
    let date = date_of(year, month, date)?;
    Day::new(date.to_unix_epoch_day())
}

fn date_of(year: u16, month: u8, date: u8) -> Option<Date>
    requires year { year < 10000 }
    requires month { month < 100 }
    requires date { date < 100 }
    ensures { MatchOption result (is_date year month date ≡ false) (IsDateOf year month date) }
{
    Date::new(year as i16, month as i8, date as i8).ok()
}

fn spelt(year: u16, month: u8, date: u8) -> [u8; 10]
    ensures { result ≡ date_text year month date }
{
    [
        digit(1000, year),
        digit(100, year),
        digit(10, year),
        digit(1, year),
        b'-',
        digit(10, u16::from(month)),
        digit(1, u16::from(month)),
        b'-',
        digit(10, u16::from(date)),
        digit(1, u16::from(date)),
    ]
}

fn digit(weight: u16, number: u16) -> u8
    requires { 0 < weight }
    ensures { result ≡ spec.digit weight number }
{
    b'0' + (number / weight % 10) as u8
}
