//! Features.

ghost use Rattle.std.specs.Prelude.{◌≡◌, IfOk, map};
ghost use Rattle.cad_feature.specs.Values.{datum_of};

use crate::folded::FoldedText;
use crate::folded_pattern::FoldedPattern;
use crate::marks::{TextMarks, marks_of_values};
use crate::{Period, Value};
use cad_versions::{Identifier, ObjectId, compare_identifiers};
use std::alloc::{AllocError, Global};
use std::cmp::Ordering;
use std::marker::Model;

/// One version of an object as a feature of a collection, with the values that it has at some revisions: they are in the order of the
/// collection's schema.
///
/// `object` and `number` identify it; the number is from 1 to 2,147,483,647. Contracts see it as an `Item`.
#[derive(Debug, Drop)]
pub struct Feature {
    /// The object of the version.
    pub object: ObjectId,
    /// The number of the version within its object, from 1 on.
    pub number: u32,
    /// The values of its properties, in the order of the schema.
    pub values: Vec<Value>,
    /// The revisions at which it has these values.
    pub period: Period,
    /// The marks of its texts with their case folded.
    marks: TextMarks,
}

impl Model for Feature {
    ghost use Rattle.std.specs.Prelude.{map};
    ghost use Rattle.cad_feature.specs.Features.{Item};
    ghost use Rattle.cad_feature.specs.Values.{datum_of};

    ghost Value = { Item };

    ghost view = { λ x. record { object = x.object; number = x.number; values = map datum_of x.values.items; period = x.period } };

    ghost use Rattle.cad_versions.specs.Identifiers.{IsVersionNumber};
    ghost use Rattle.cad_feature.specs.Marks.{AreMarked};

    ghost invariant = { λ x. IsVersionNumber x.number × AreMarked x.marks (map datum_of x.values.items) };
}

fn copies(alloc: Global, values: &[Value]) -> Result<Vec<Value>, AllocError>
    ensures { IfOk result (λ copies. map datum_of copies.items ≡ map datum_of values.now) }
{
    let mut copies = Vec::with_capacity(alloc, values.len())?;
    for value in values {
        let copy = value.copy(alloc)?;
        copies.push(copy)?;
    }
    Ok(copies)
}

impl Feature {
    ghost use Rattle.std.specs.Prelude.{◌≡◌, ◌≢◌, ℕ, List, IfOk, MatchOption, false, map, true};
    ghost use Rattle.caseless.specs.Caseless.{default_case_fold};
    ghost use Rattle.cql_text.specs.Patterns.{like_test};
    ghost use Rattle.cad_versions.specs.Identifiers.{IsVersionNumber, numbers_of as numbers_said};
    ghost use Rattle.cad_feature.specs.Features.{by_identifier, datum_at, numbers_of};
    ghost use Rattle.cad_feature.specs.Values.{a_text, datum_of, null};

    /// The feature of the version with that number of the object, with these values at the revisions of the period.
    pub fn new(object: ObjectId, number: u32, values: Vec<Value>, period: Period) -> Feature
        requires { IsVersionNumber number }
        ensures { result ≡ record { object = object; number = number; values = map datum_of values.items; period = period } }
    {
        let marks = marks_of_values(&values);
        Feature {
            object,
            number,
            values,
            period,
            marks,
        }
    }

    /// A copy with that period. Texts and regions are shared. An error means out of memory.
    pub fn copy(&self, alloc: Global, period: Period) -> Result<Feature, AllocError>
        ensures { IfOk result (λ copy. copy ≡ record self.now { period = period }) }
    {
        let values = copies(alloc, &self.values)?;
        Ok(Feature {
            object: self.object,
            number: self.number,
            values,
            period,
            marks: self.marks,
        })
    }

    /// The feature with that period.
    pub fn with_period(self, period: Period) -> Feature
        ensures { result ≡ record self { period = period } }
    {
        let Feature {
            object,
            number,
            values,
            period: _,
            marks,
        } = self;
        Feature {
            object,
            number,
            values,
            period,
            marks,
        }
    }

    /// Its object and its number.
    pub fn identifier(&self) -> Identifier
        ensures { numbers_said result ≡ numbers_of self.now }
    {
        Identifier {
            object: self.object,
            number: self.number,
        }
    }

    /// How it compares with another, by their identifiers.
    pub fn compare(&self, other: &Feature) -> Ordering
        ensures { result ≡ by_identifier self.now other.now }
    {
        compare_identifiers((self.object, self.number), (other.object, other.number))
    }

    /// The value of the property at that place of the schema, if there is such a place.
    pub fn value(&self, place: usize) -> Option<&Value>
        ensures { MatchOption result (datum_at self.now place ≡ null) (λ value. datum_of value.now ≡ datum_at self.now place) }
    {
        if place < self.values.len() {
            Some(&self.values[place])
        } else {
            None
        }
    }

    /// Whether its value of the property may be a text that is the folded text if its case is folded. Most other texts are told apart by
    /// one comparison of numbers.
    pub fn may_fold_to(&self, text: &FoldedText) -> bool
        ensures { result ≡ false → (own : List ℕ) → datum_at self.now text.now.property ≡ a_text own → default_case_fold own ≢ text.now.text }
    {
        self.marks.include(text.marks())
    }

    /// Whether its value of the property may be a text that is like the pattern if its case is folded. Texts that begin or end with another
    /// character than the pattern are mostly told apart by one comparison of numbers.
    pub fn may_fold_like(&self, pattern: &FoldedPattern) -> bool
        ensures { result ≡ false → (own : List ℕ) → datum_at self.now pattern.now.property ≡ a_text own → like_test pattern.now.pattern (default_case_fold own) ≢ true }
    {
        self.marks.include(pattern.marks())
    }
}
