//! Which values of a property may be there, by the marks of their places.

ghost use Rattle.std.specs.Prelude.{◌≡◌, ◌↔◌, ℕ, IfOk, IsTrue, OnOk, Option, Some, chars, false};
ghost use Rattle.cad_feature.specs.Limits.{limit_of, with_value};
ghost use Rattle.cad_feature.specs.Values.{Datum, a_text, a_whole, datum_of};
ghost use Rattle.cad_range.specs.Ranges.{lies_between};
ghost use Rattle.cad_extents.specs.Places.{AreMarkedAt, AreMarkedIfAny, AreWithin, IsNoted, IsNotedAt, places_of as places_of_datum};
ghost use Rattle.cad_extents.specs.declared.places.Places.{Places as PlacesOf};
ghost use Rattle.cad_marks.specs.Marked.{IsMarked};

use crate::places::{Places, WORDS, places_of, places_of_text, places_of_whole};
use cad_feature::{Edge, Range, Scalar, Value};
use cad_marks::Marks;
use std::alloc::{AllocError, Global};
use std::rc::Rc;

/// Numbers are looked up one by one if they are fewer than this.
const MOST_NUMBERS: u32 = 64;

/// Which whole numbers and texts may be among the values of a property.
#[derive(Debug, Drop)]
pub(crate) enum NotedValues {
    /// There is no number and no text.
    Empty,
    /// Their places are marked. Extents that were widened by other values since share the marks.
    Marked(Rc<Marks<WORDS>>),
    /// They may be any.
    Any,
}

/// Whether all four places are marked.
fn has_all(marks: &Marks<WORDS>, places: Places) -> bool
    requires { AreWithin places }
    ensures { IsTrue result ↔ AreMarkedAt marks.now places }
{
    marks.has(places.first)
        && marks.has(places.second)
        && marks.has(places.third)
        && marks.has(places.fourth)
}

/// Marks all four places.
fn set_all(marks: &mut Marks<WORDS>, places: Places)
    requires { AreWithin places }
    ensures own { (k : ℕ) → IsMarked marks.old k → IsMarked marks.new k }
    ensures more { AreMarkedAt marks.new places }
{
    marks.set(places.first);
    marks.set(places.second);
    marks.set(places.third);
    marks.set(places.fourth);
}

/// Marks the places of one more value. Marks that others share are copied first. An error means out of memory.
fn mark(alloc: Global, marks: &mut Rc<Marks<WORDS>>, places: Places) -> Result<(), AllocError>
    requires { AreWithin places }
    ensures own { OnOk result ((k : ℕ) → IsMarked marks.old.value k → IsMarked marks.new.value k) }
    ensures more { OnOk result (AreMarkedAt marks.new.value places) }
{
    if has_all(marks, places) {
        return Ok(());
    }
    if let Some(own) = Rc::get_mut(marks) {
        set_all(own, places);
        return Ok(());
    }
    let mut copy = marks.copy(alloc)?;
    set_all(&mut copy, places);
    *marks = Rc::new(alloc, copy)?;
    Ok(())
}

/// The marks of one value. An error means out of memory.
fn marks_of(alloc: Global, places: Places) -> Result<Rc<Marks<WORDS>>, AllocError>
    requires { AreWithin places }
    ensures { IfOk result (λ all. AreMarkedAt all.value places) }
{
    let mut marks = Marks::none(alloc)?;
    set_all(&mut marks, places);
    let marks = Rc::new(alloc, marks)?;
    Ok(marks)
}

/// Whether the places of a number from `low` to `high` are marked. If there are many numbers, it may return true without a search.
fn has_between(marks: &Marks<WORDS>, low: i64, high: i64) -> bool
    ensures { result ≡ false → (d : Datum) → AreMarkedIfAny marks.now (places_of_datum d) → lies_between (with_value (a_whole low)) (with_value (a_whole high)) d ≡ false }
{
    for offset in 0..MOST_NUMBERS {
        let Some(number) = low.checked_add(i64::from(offset)) else {
            return true;
        };
        if number > high {
            return false;
        }
        if has_all(marks, places_of_whole(number)) {
            return true;
        }
    }
    true
}

/// Whether the places of a text from `low` to `high` are marked. One text alone is looked up.
fn has_text(marks: &Marks<WORDS>, low: &str, high: &str) -> bool
    ensures { result ≡ false → (d : Datum) → AreMarkedIfAny marks.now (places_of_datum d) → lies_between (with_value (a_text (chars low.now))) (with_value (a_text (chars high.now))) d ≡ false }
{
    low != high || has_all(marks, places_of_text(low))
}

/// Whether a value with marked places may lie between the ends.
fn may_be_between(marks: &Marks<WORDS>, low: &Edge, high: &Edge) -> bool
    ensures { result ≡ false → (d : Datum) → AreMarkedIfAny marks.now (places_of_datum d) → lies_between (limit_of low.now) (limit_of high.now) d ≡ false }
{
    match (low, high) {
        (Edge::With(Scalar::Whole(low)), Edge::With(Scalar::Whole(high))) => {
            has_between(marks, *low, *high)
        }
        (Edge::With(Scalar::Text(low)), Edge::With(Scalar::Text(high))) => {
            has_text(marks, low.as_str(), high.as_str())
        }
        _ => true,
    }
}

impl NotedValues {
    /// Notes a value with these places. An error means out of memory.
    fn note(&mut self, alloc: Global, places: Places) -> Result<(), AllocError>
        requires { AreWithin places }
        ensures own { OnOk result ((p : Option PlacesOf) → IsNotedAt self.old p → IsNotedAt self.new p) }
        ensures more { OnOk result (IsNotedAt self.new (Some places)) }
    {
        match self {
            NotedValues::Empty => *self = NotedValues::Marked(marks_of(alloc, places)?),
            NotedValues::Marked(marks) => mark(alloc, marks, places)?,
            NotedValues::Any => {}
        }
        Ok(())
    }

    /// Takes in one more value. An error means out of memory.
    pub(crate) fn widen(&mut self, alloc: Global, value: &Value) -> Result<(), AllocError>
        ensures own { OnOk result ((d : Datum) → IsNoted self.old d → IsNoted self.new d) }
        ensures more { OnOk result (IsNoted self.new (datum_of value.now)) }
    {
        if let Some(places) = places_of(value) {
            self.note(alloc, places)?;
        }
        Ok(())
    }

    /// The same values. The marks are shared.
    pub(crate) fn share(&self) -> NotedValues
        ensures { (d : Datum) → IsNoted self.now d → IsNoted result d }
    {
        match self {
            NotedValues::Empty => NotedValues::Empty,
            NotedValues::Marked(marks) => match marks.clone() {
                Ok(marks) => NotedValues::Marked(marks),
                Err(_) => NotedValues::Any,
            },
            NotedValues::Any => NotedValues::Any,
        }
    }

    /// Whether such a value may lie in the range.
    pub(crate) fn may_lie_in(&self, range: &Range) -> bool
        ensures { result ≡ false → (d : Datum) → IsNoted self.now d → lies_between (limit_of range.now.low) (limit_of range.now.high) d ≡ false }
    {
        match self {
            NotedValues::Marked(marks) => may_be_between(marks, &range.low, &range.high),
            NotedValues::Empty | NotedValues::Any => true,
        }
    }
}
