//! The three answers, and how NOT, AND and OR join them.

ghost use Rattle.std.specs.Prelude.{◌≡◌, [], ◌∷◌};
ghost use Rattle.cql_meaning.specs.Said.{said};
ghost use Rattle.cql_meaning.specs.Sides.{conjunction, disjunction, negation as negation_of, sides_of};

/// What a filter says of a feature.
#[derive(Clone, Copy, PartialEq, Eq, Debug)]
pub enum Truth {
    /// It is true of the feature.
    Yes,
    /// It is false of the feature.
    No,
    /// It is neither, because a value is missing.
    Unknown,
}

pub(crate) fn truth_of(answer: Option<bool>) -> Truth
    ensures { said result ≡ sides_of answer }
{
    match answer {
        Some(true) => Truth::Yes,
        Some(false) => Truth::No,
        None => Truth::Unknown,
    }
}

pub(crate) fn negation(truth: Truth) -> Truth
    ensures { said result ≡ negation_of (said truth) }
{
    match truth {
        Truth::Yes => Truth::No,
        Truth::No => Truth::Yes,
        Truth::Unknown => Truth::Unknown,
    }
}

pub(crate) fn and(a: Truth, b: Truth) -> Truth
    ensures { said result ≡ conjunction (said a ∷ said b ∷ []) }
{
    match (a, b) {
        (Truth::No, _) | (_, Truth::No) => Truth::No,
        (Truth::Yes, Truth::Yes) => Truth::Yes,
        _ => Truth::Unknown,
    }
}

pub(crate) fn or(a: Truth, b: Truth) -> Truth
    ensures { said result ≡ disjunction (said a ∷ said b ∷ []) }
{
    match (a, b) {
        (Truth::Yes, _) | (_, Truth::Yes) => Truth::Yes,
        (Truth::No, Truth::No) => Truth::No,
        _ => Truth::Unknown,
    }
}
