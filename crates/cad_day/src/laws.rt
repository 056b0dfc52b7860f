//! What holds of days, their texts and how intervals lie, beyond what each call says.

ghost use Rattle.std.specs.Prelude.{◌≡◌, ◌↔◌, ◌||◌, not, ℕ, ℤ, IsTrue, List, Ok, Some};
ghost use Rattle.cad_day.specs.Days.{number_of};
ghost use Rattle.cad_day.specs.Intervals.{IntervalsHaveTheirEnds};
ghost use Rattle.cad_day.specs.DayTexts.{Names, ReadsWhatIsNamed, HasOneText, day_named, day_text};
ghost use Rattle.cad_day.specs.Moments.{asked};
ghost use Rattle.cad_day.specs.Relations.{holds, mirror, ShareDay};
ghost use Rattle.cad_day.specs.declared.relation.Relation.TheVariants.{After, Before, Disjoint, Intersects};

use crate::{Day, Interval, Relation};

/// A text is read as the day that it names in the calendar, and as no other.
pub fn reading_is_naming()
    ensures { (text : List ℕ) (number : ℤ) → ReadsWhatIsNamed text number }
{}

/// The text of a day names it.
pub fn each_day_is_named(day: Day)
    ensures { Names (day_text (number_of day)) (number_of day) }
{
    let _ = day.civil_date();
}

/// A day has only one text.
pub fn each_day_has_one_text()
    ensures { (text : List ℕ) (number : ℤ) → HasOneText text number }
{}

/// What is written of a day is read as that day.
pub fn written_days_are_read_back(day: Day)
    ensures { day_named (day_text (number_of day)) ≡ Some (number_of day) }
{
    each_day_is_named(day);
}

/// From one end to another there is an interval with these ends, or they are in the wrong order.
pub fn intervals_have_their_ends()
    ensures { IntervalsHaveTheirEnds }
{}

/// Seen from the other interval a relation is its mirror: AFTER and BEFORE, CONTAINS and DURING,
/// MEETS and METBY, STARTS and STARTEDBY, FINISHES and FINISHEDBY, OVERLAPS and OVERLAPPEDBY;
/// DISJOINT, INTERSECTS and EQUALS are their own.
pub fn each_relation_has_its_mirror(relation: Relation, a: Interval, b: Interval)
    ensures { holds (mirror relation) a b ≡ holds relation b a }
{}

/// Two intervals are disjoint if and only if one lies after the other, or before it.
pub fn disjoint_is_after_or_before(a: Interval, b: Interval)
    ensures { holds Disjoint a b ≡ (holds After a b || holds Before a b) }
{}

/// Two intervals intersect if and only if they are not disjoint.
pub fn intersecting_is_not_disjoint(a: Interval, b: Interval)
    ensures { holds Intersects a b ≡ not (holds Disjoint a b) }
{}

/// Two intervals intersect if and only if some day lies in both.
pub fn intersecting_is_sharing_a_day(a: Interval, b: Interval)
    ensures { IsTrue (holds Intersects a b) ↔ ShareDay a b }
{}

/// The text of a day asks for that day.
pub fn a_day_is_asked_by_its_text(day: Day)
    ensures { asked (day_text (number_of day)) ≡ Ok (Some (number_of day), Some (number_of day)) }
{
    written_days_are_read_back(day);
}
