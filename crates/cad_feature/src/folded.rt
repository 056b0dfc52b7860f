//! A text with its case folded, by which most features are told apart without a look at their texts.

use crate::marks::{TextMarks, marks_of_folded};
use std::marker::Model;

/// A text with its case folded, to which texts of one property are compared.
///
/// Contracts see it as a `FoldedValue`.
#[derive(Debug, Drop)]
pub struct FoldedText {
    property: usize,
    text: String,
    marks: TextMarks,
}

impl Model for FoldedText {
    ghost use Rattle.std.specs.Prelude.{chars, string_bytes};
    ghost use Rattle.cad_feature.specs.Folded.{FoldedValue};

    ghost Value = { FoldedValue };

    ghost view = { λ x. record { property = x.property; text = chars (string_bytes x.text) } };

    ghost use Rattle.std.specs.Prelude.{◌≡◌};
    ghost use Rattle.cad_feature.specs.Marks.{AreMarksOf, HasHashOf};

    ghost invariant = { λ x. AreMarksOf x.marks x.property (λ folded. folded ≡ chars (string_bytes x.text)) × HasHashOf x.marks x.property (chars (string_bytes x.text)) };
}

impl FoldedText {
    ghost use Rattle.std.specs.Prelude.{◌≡◌, chars, string_bytes};
    ghost use Rattle.cad_feature.specs.Marks.{AreMarksOf, HasHashOf};

    /// The text, which has its case folded, for the property at that place of the schema.
    pub fn new(property: usize, text: String) -> FoldedText
        ensures { result ≡ record { property = property; text = chars (string_bytes text) } }
    {
        let marks = marks_of_folded(property, text.as_str());
        FoldedText {
            property,
            text,
            marks,
        }
    }

    /// The place of the property in the schema.
    pub fn property(&self) -> usize
        ensures { result ≡ self.now.property }
    {
        self.property
    }

    /// The text.
    pub fn as_str(&self) -> &str
        ensures { chars result.now ≡ self.now.text }
    {
        self.text.as_str()
    }

    /// The marks that each text has which is this one if its case is folded.
    pub(crate) fn marks(&self) -> TextMarks
        ensures no_further { AreMarksOf result self.now.property (λ folded. folded ≡ self.now.text) }
        ensures none_missing { HasHashOf result self.now.property self.now.text }
    {
        self.marks
    }
}
