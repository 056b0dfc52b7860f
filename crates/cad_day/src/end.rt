//! The ends of an interval, in the order of days.

ghost use Rattle.std.specs.Prelude.{◌≡◌};
ghost use Rattle.cad_day.specs.Relations as spec;

use crate::{Day, Interval};

/// An end of an interval. An open one lies before every day, or after every day.
#[derive(Clone, Copy, PartialEq, Eq, PartialOrd, Ord, Debug)]
pub(crate) enum End {
    /// An open start.
    BeforeAll,
    /// The day of an end that is not open.
    On(Day),
    /// An open end.
    AfterAll,
}

pub(crate) fn first_end(days: Interval) -> End
    ensures { result ≡ spec.first_end days }
{
    days.from.map_or(End::BeforeAll, End::On)
}

pub(crate) fn last_end(days: Interval) -> End
    ensures { result ≡ spec.last_end days }
{
    days.to.map_or(End::AfterAll, End::On)
}

pub(crate) fn is_before(end: End, other: End) -> bool
    ensures { result ≡ spec.is_before end other }
{
    end < other
}

pub(crate) fn is_same(end: End, other: End) -> bool
    ensures { result ≡ spec.is_same end other }
{
    end == other
}
