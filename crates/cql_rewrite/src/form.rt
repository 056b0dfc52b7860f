//! Normal forms.

use cad_feature::{FoldedPattern, FoldedText};
use cad_range::Range;
use cad_shape::Shape;
use cql_types::Filter;

/// A condition that a feature meets or does not meet.
#[derive(Drop)]
pub enum Normal<'a> {
    /// Every feature meets it, or no feature does.
    Constant(bool),
    /// The feature has a value inside the range.
    Range(Range),
    /// The feature has a text inside the range, and the text is like the pattern. The range is that of the pattern's front.
    Like {
        pattern: String,
        range: Range,
    },
    /// The filter is true of the feature, or false of it.
    Atom {
        filter: &'a Filter,
        side: bool,
    },
    /// The same for a condition that the form itself owns: one in which the case of each constant is folded beforehand, or an
    /// equality of an IN.
    Owned {
        filter: Filter,
        side: bool,
    },
    /// The feature has this text, with its case folded.
    Folded(FoldedText),
    /// The feature has a text that is like the pattern, with its case folded.
    LikeFolded(FoldedPattern),
    /// The filter is true of the feature, and its shape of the property is near the shape: its bounds touch more than 64
    /// cells, or a cell that the shape's bounds touch.
    Near {
        filter: &'a Filter,
        property: usize,
        shape: &'a Shape,
    },
    /// The feature meets all of these.
    And(Vec<Normal<'a>>),
    /// The feature meets some of these.
    Or(Vec<Normal<'a>>),
}

impl Normal<'_> {
    ghost use Rattle.std.specs.Prelude.{◌≡◌, IfSome, IsTrue, is_some};
    ghost use Rattle.cad_feature.specs.Features.{Item};
    ghost use Rattle.cad_range.specs.Ranges.{lies_in};
    ghost use Rattle.cql_rewrite.specs.Meets.{is_settled, meets, offers};

    /// What every feature meets or no feature does, if the whole is a constant. No memory is taken.
    pub fn is_constant(&self) -> Option<bool>
        ensures stands { IfSome result (λ b. (x : Item) → meets x self.now ≡ b) }
        ensures is_there { is_some result ≡ is_settled self.now }
    {
        match self {
            Normal::Constant(b) => Some(*b),
            _ => None,
        }
    }

    /// A range in which each feature that meets the whole has a value, if the form offers one: the range of a comparison, of the
    /// front of a LIKE, or of the first part of an AND that has one. No memory is taken.
    pub fn range(&self) -> Option<&Range>
        ensures stands { IfSome result (λ r. (x : Item) → IsTrue (meets x self.now) → IsTrue (lies_in x r.now)) }
        ensures is_there { is_some result ≡ offers self.now }
    {
        match self {
            Normal::And(parts) => first_range(parts),
            form => own_range(form),
        }
    }
}

ghost use Rattle.std.specs.Prelude.{◌≡◌, IfSome, IsTrue, is_some};
ghost use Rattle.std.specs.List.{list_all, list_any};
ghost use Rattle.cad_feature.specs.Features.{Item};
ghost use Rattle.cad_range.specs.Ranges.{lies_in};
ghost use Rattle.cql_rewrite.specs.Meets.{meets, offers_own};

fn own_range<'a>(form: &'a Normal) -> Option<&'a Range>
    ensures stands { IfSome result (λ r. (x : Item) → IsTrue (meets x form.now) → IsTrue (lies_in x r.now)) }
    ensures is_there { is_some result ≡ offers_own form.now }
{
    match form {
        Normal::Range(range) => Some(range),
        Normal::Like { range, .. } => Some(range),
        _ => None,
    }
}

fn first_range<'a>(parts: &'a [Normal]) -> Option<&'a Range>
    ensures stands { IfSome result (λ r. (x : Item) → IsTrue (list_all (meets x) parts.now) → IsTrue (lies_in x r.now)) }
    ensures is_there { is_some result ≡ list_any offers_own parts.now }
{
    for part in parts {
        if let Some(range) = own_range(part) {
            return Some(range);
        }
    }
    None
}
