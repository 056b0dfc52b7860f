//! One day of the calendar.

ghost use Rattle.cad_day.specs.DayNumbers.{IsDayNumber};

/// A day of the proleptic Gregorian calendar, from 0000-01-01 to 9999-12-31.
#[derive(Clone, Copy, Debug, PartialEq, Eq, PartialOrd, Ord)]
pub struct Day {
    number: i32,
    /// The number is that of a day of the calendar.
    pub ghost in_range: { IsDayNumber number },
}

impl Day {
    ghost use Rattle.std.specs.Prelude.{◌≡◌, MatchOption};
    ghost use Rattle.cad_day.specs.Days.{number_of};
    ghost use Rattle.cad_day.specs.DayBefore.{day_before};

    /// The number of the first day, 0000-01-01.
    pub const FIRST_NUMBER: i32 = -719_528;

    /// The number of the last day, 9999-12-31.
    pub const LAST_NUMBER: i32 = 2_932_896;

    /// The day with that number: days from 1970-01-01, negative before it.
    pub fn new(number: i32) -> Option<Day>
        ensures { MatchOption result (¬ IsDayNumber number) (λ day. number_of day ≡ number) }
    {
        if number < Day::FIRST_NUMBER || number > Day::LAST_NUMBER {
            return None;
        }
        Some(Day { number })
    }

    /// The day's number: days from 1970-01-01, negative before it.
    pub fn number(self) -> i32
        ensures value { result ≡ number_of self }
        ensures in_range { IsDayNumber result }
    {
        self.number
    }
    /// The day before, or for the very first day that day itself.
    #[tactic(auto, using(crate::specs::lemmas::SameLemmas::same_day))]
    pub fn before(self) -> Day
        ensures { result ≡ day_before self }
    {
        let number = self.number();
        if number <= Day::FIRST_NUMBER {
            return self;
        }
        match Day::new(number - 1) {
            Some(before) => before,
            None => unreachable!(),
        }
    }
}
