//! A pattern for texts with their case folded, by which most features are told apart without a look at their texts.

use crate::marks::{TextMarks, marks_of_pattern};
use std::marker::Model;

/// A pattern to which texts of one property are compared, with their case folded.
///
/// Contracts see it as a `PatternOfFolded`.
#[derive(Debug, Drop)]
pub struct FoldedPattern {
    property: usize,
    pattern: String,
    marks: TextMarks,
}

impl Model for FoldedPattern {
    ghost use Rattle.std.specs.Prelude.{chars, string_bytes};
    ghost use Rattle.cad_feature.specs.Folded.{PatternOfFolded};

    ghost Value = { PatternOfFolded };

    ghost view = { λ x. record { property = x.property; pattern = chars (string_bytes x.pattern) } };

    ghost use Rattle.std.specs.Prelude.{◌≡◌, true};
    ghost use Rattle.cql_text.specs.Patterns.{like_test};
    ghost use Rattle.cad_feature.specs.Marks.{AreMarksOf, HasEndsOf};

    ghost invariant = { λ x. AreMarksOf x.marks x.property (λ folded. like_test (chars (string_bytes x.pattern)) folded ≡ true) × HasEndsOf x.marks x.property (chars (string_bytes x.pattern)) };
}

impl FoldedPattern {
    ghost use Rattle.std.specs.Prelude.{◌≡◌, chars, string_bytes, true};
    ghost use Rattle.cql_text.specs.Patterns.{like_test};
    ghost use Rattle.cad_feature.specs.Marks.{AreMarksOf, HasEndsOf};

    /// The pattern for the property at that place of the schema.
    pub fn new(property: usize, pattern: String) -> FoldedPattern
        ensures { result ≡ record { property = property; pattern = chars (string_bytes pattern) } }
    {
        let marks = marks_of_pattern(property, pattern.as_str());
        FoldedPattern {
            property,
            pattern,
            marks,
        }
    }

    /// The place of the property in the schema.
    pub fn property(&self) -> usize
        ensures { result ≡ self.now.property }
    {
        self.property
    }

    /// The pattern.
    pub fn as_str(&self) -> &str
        ensures { chars result.now ≡ self.now.pattern }
    {
        self.pattern.as_str()
    }

    /// The marks that each text has which is like the pattern if its case is folded.
    pub(crate) fn marks(&self) -> TextMarks
        ensures no_further { AreMarksOf result self.now.property (λ folded. like_test self.now.pattern folded ≡ true) }
        ensures none_missing { HasEndsOf result self.now.property self.now.pattern }
    {
        self.marks
    }
}
