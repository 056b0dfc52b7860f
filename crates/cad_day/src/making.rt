//! Intervals made of their ends.

ghost use Rattle.std.specs.Prelude.{◌≡◌, MatchOption};
ghost use Rattle.cad_day.specs.Days.{IsTurned};
ghost use Rattle.cad_day.specs.Intervals.{interval_of};

use crate::{Day, Interval};

impl Interval {
    ghost use Rattle.std.specs.Prelude.{◌≡◌, MatchOption};
    ghost use Rattle.cad_day.specs.Days.{IsTurned};
    ghost use Rattle.cad_day.specs.Intervals.{interval_of};

    /// The interval with these ends, if they are in order.
    pub fn new(from: Option<Day>, to: Option<Day>) -> Option<Interval>
        ensures ends { MatchOption result (IsTurned from to) (λ days. (days.from ≡ from) × (days.to ≡ to)) }
        ensures interval { result ≡ interval_of from to }
    {
        with_ends(from, to)
    }
}

fn with_ends(from: Option<Day>, to: Option<Day>) -> Option<Interval>
    ensures { MatchOption result (IsTurned from to) (λ days. (days.from ≡ from) × (days.to ≡ to)) }
{
    if let (Some(first), Some(last)) = (from, to)
        && last < first
    {
        return None;
    }
    Some(Interval { from, to })
}
