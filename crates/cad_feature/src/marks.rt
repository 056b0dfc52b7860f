//! Marks of texts with their case folded, by which most features are told apart without a look at their texts.

ghost use Rattle.std.specs.Prelude.{◌≡◌, ℕ, List, IfSome, chars, map, true};
ghost use Rattle.caseless.specs.Caseless.{default_case_fold};
ghost use Rattle.cql_text.specs.Patterns.{like_test};
ghost use Rattle.cad_feature.specs.Marks.{AreMarked, AreMarksOf, HasBits, HasEndsOf, HasHashOf, HasMarksOf, Includes, bit_of_first as first_bit, bit_of_last as last_bit, bits_of_hash as hash_bits};
ghost use Rattle.cad_feature.specs.Values.{a_text, datum_of};

use crate::Value;
use cql_text::{first_folded, first_literal, hash_of, hash_of_folded, last_folded, last_literal};

/// The marks of the texts of a feature, or of a text to which they are compared.
#[derive(Clone, Copy, Debug)]
pub(crate) struct TextMarks {
    /// Two bits for each text, by its hash.
    pub hashes: u64,
    /// Two bits for each text, by its first and its last character.
    pub ends: u64,
}

fn bits_of_hash(property: usize, hash: u32) -> u64
    ensures { result ≡ hash_bits property hash }
{
    let turn = (property % 64) as u32;
    let first = (hash % 64 + turn * 23) % 64;
    let second = (hash / 64 % 64 + turn * 41) % 64;
    (1 << first) | (1 << second)
}

fn bit_of_first(property: usize, character: char) -> u64
    ensures { result ≡ first_bit property character }
{
    let turn = (property % 64) as u32;
    1 << ((u32::from(character) + turn * 11) % 64)
}

fn bit_of_last(property: usize, character: char) -> u64
    ensures { result ≡ last_bit property character }
{
    let turn = (property % 64) as u32;
    1 << ((u32::from(character) * 5 + turn * 43) % 64)
}

/// The bit of a first character, if it is known.
#[tactic(auto, using(crate::proofs::FoldedLemmas::no_bits))]
fn bits_of_first(property: usize, first: Option<char>) -> u64
    ensures own { IfSome first (λ c. HasBits result (first_bit property c)) }
    ensures least { (all : ℕ) → IfSome first (λ c. HasBits all (first_bit property c)) → HasBits all result }
{
    match first {
        None => 0,
        Some(character) => bit_of_first(property, character),
    }
}

/// The bit of a last character, if it is known.
#[tactic(auto, using(crate::proofs::FoldedLemmas::no_bits))]
fn bits_of_last(property: usize, last: Option<char>) -> u64
    ensures own { IfSome last (λ c. HasBits result (last_bit property c)) }
    ensures least { (all : ℕ) → IfSome last (λ c. HasBits all (last_bit property c)) → HasBits all result }
{
    match last {
        None => 0,
        Some(character) => bit_of_last(property, character),
    }
}

/// The bits of a first and of a last character.
fn bits_of_ends(property: usize, first: Option<char>, last: Option<char>) -> u64
    ensures first { IfSome first (λ c. HasBits result (first_bit property c)) }
    ensures last { IfSome last (λ c. HasBits result (last_bit property c)) }
    ensures least { (all : ℕ) → IfSome first (λ c. HasBits all (first_bit property c)) → IfSome last (λ c. HasBits all (last_bit property c)) → HasBits all result }
{
    bits_of_first(property, first) | bits_of_last(property, last)
}

/// The marks of a text of the property, with its case folded.
fn marks_of_text(property: usize, text: &str) -> TextMarks
    ensures { HasMarksOf result property (default_case_fold (chars text.now)) }
{
    TextMarks {
        hashes: bits_of_hash(property, hash_of_folded(text)),
        ends: bits_of_ends(property, first_folded(text), last_folded(text)),
    }
}

/// The marks of a value of the property, if it is a text.
fn marks_of_value(property: usize, value: &Value) -> TextMarks
    ensures { (text : List ℕ) → datum_of value.now ≡ a_text text → HasMarksOf result property (default_case_fold text) }
{
    match value {
        Value::Text(text) => marks_of_text(property, text.as_str()),
        _ => TextMarks { hashes: 0, ends: 0 },
    }
}

/// The marks of all texts among the values of a feature.
pub(crate) fn marks_of_values(values: &[Value]) -> TextMarks
    ensures { AreMarked result (map datum_of values.now) }
{
    let mut marks = TextMarks { hashes: 0, ends: 0 };
    for (property, value) in values.iter().enumerate() {
        marks = marks.with(marks_of_value(property, value));
    }
    marks
}

/// The marks that a text of the property has which is this one if its case is folded.
pub(crate) fn marks_of_folded(property: usize, text: &str) -> TextMarks
    ensures no_further { AreMarksOf result property (λ folded. folded ≡ chars text.now) }
    ensures none_missing { HasHashOf result property (chars text.now) }
{
    TextMarks {
        hashes: bits_of_hash(property, hash_of(text)),
        ends: 0,
    }
}

/// The marks that a text of the property has which is like the pattern if its case is folded.
pub(crate) fn marks_of_pattern(property: usize, pattern: &str) -> TextMarks
    ensures no_further { AreMarksOf result property (λ folded. like_test (chars pattern.now) folded ≡ true) }
    ensures none_missing { HasEndsOf result property (chars pattern.now) }
{
    TextMarks {
        hashes: 0,
        ends: bits_of_ends(property, first_literal(pattern), last_literal(pattern)),
    }
}

impl TextMarks {
    ghost use Rattle.std.specs.Prelude.{◌≡◌, ◌↔◌, ℕ, List, IsTrue, bit_or};
    ghost use Rattle.cad_feature.specs.Marks.{Includes};

    /// These marks and others.
    fn with(self, more: TextMarks) -> TextMarks
        ensures { result ≡ record { hashes = bit_or self.hashes more.hashes; ends = bit_or self.ends more.ends } }
    {
        TextMarks {
            hashes: self.hashes | more.hashes,
            ends: self.ends | more.ends,
        }
    }

    /// Whether all of those marks are among these.
    pub(crate) fn include(self, marks: TextMarks) -> bool
        ensures { IsTrue result ↔ Includes self marks }
    {
        self.hashes & marks.hashes == marks.hashes && self.ends & marks.ends == marks.ends
    }
}
