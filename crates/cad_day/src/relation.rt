//! How two intervals of days lie to one another.

ghost use Rattle.std.specs.Prelude.{◌≡◌};
ghost use Rattle.cad_day.specs.Relations as spec;

use crate::Interval;
use crate::end::{first_end, is_before, is_same, last_end};

/// The relations of the temporal functions of CQL2 (OGC 21-065r2).
#[derive(Clone, Copy, PartialEq, Eq, Debug)]
pub enum Relation {
    /// `T_AFTER`
    After,
    /// `T_BEFORE`
    Before,
    /// `T_DISJOINT`
    Disjoint,
    /// `T_INTERSECTS`
    Intersects,
    /// `T_EQUALS`
    Equals,
    /// `T_CONTAINS`
    Contains,
    /// `T_DURING`
    During,
    /// `T_MEETS`
    Meets,
    /// `T_METBY`
    MetBy,
    /// `T_STARTS`
    Starts,
    /// `T_STARTEDBY`
    StartedBy,
    /// `T_FINISHES`
    Finishes,
    /// `T_FINISHEDBY`
    FinishedBy,
    /// `T_OVERLAPS`
    Overlaps,
    /// `T_OVERLAPPEDBY`
    OverlappedBy,
}

/// Whether the relation holds of the first interval to the second.
///
/// An open start lies before every day and an open end after every day, and two open ends of one
/// side are equal.
pub fn holds(relation: Relation, a: Interval, b: Interval) -> bool
    ensures { result ≡ spec.holds relation a b }
{
    let (a_first, a_last) = (first_end(a), last_end(a));
    let (b_first, b_last) = (first_end(b), last_end(b));
    match relation {
        Relation::After => is_before(b_last, a_first),
        Relation::Before => is_before(a_last, b_first),
        Relation::Disjoint => is_before(b_last, a_first) || is_before(a_last, b_first),
        Relation::Intersects => !(is_before(b_last, a_first) || is_before(a_last, b_first)),
        Relation::Equals => is_same(a_first, b_first) && is_same(a_last, b_last),
        Relation::Contains => is_before(a_first, b_first) && is_before(b_last, a_last),
        Relation::During => is_before(b_first, a_first) && is_before(a_last, b_last),
        Relation::Meets => is_same(a_last, b_first),
        Relation::MetBy => is_same(a_first, b_last),
        Relation::Starts => is_same(a_first, b_first) && is_before(a_last, b_last),
        Relation::StartedBy => is_same(a_first, b_first) && is_before(b_last, a_last),
        Relation::Finishes => is_same(a_last, b_last) && is_before(b_first, a_first),
        Relation::FinishedBy => is_same(a_last, b_last) && is_before(a_first, b_first),
        Relation::Overlaps => is_before(a_first, b_first)
            && is_before(b_first, a_last)
            && is_before(a_last, b_last),
        Relation::OverlappedBy => is_before(b_first, a_first)
            && is_before(a_first, b_last)
            && is_before(b_last, a_last),
    }
}
