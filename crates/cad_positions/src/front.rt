//! What is known of the front of a source.

ghost use Rattle.std.specs.Prelude.{◌≡◌};
ghost use Rattle.cad_positions.specs.Fronts.{front_of, found_of, is_before};

/// The front of a source, as far as it was looked for.
#[derive(Clone, Copy, Debug)]
pub enum Front {
    /// Not looked for yet.
    Unknown,
    /// The first position that is left.
    At(u32),
    /// Nothing is left.
    Spent,
}

impl Front {
    /// What was found.
    pub(crate) fn of(found: Option<u32>) -> Front
        ensures { result ≡ front_of found }
    {
        match found {
            None => Front::Spent,
            Some(row) => Front::At(row),
        }
    }

    /// Whether the source must be settled so that it begins at `from`.
    pub(crate) fn is_before(self, from: u32) -> bool
        ensures { result ≡ is_before self from }
    {
        match self {
            Front::Unknown => true,
            Front::At(row) => row < from,
            Front::Spent => false,
        }
    }

    /// The position, if one was found.
    pub(crate) fn found(self) -> Option<u32>
        ensures { result ≡ found_of self }
    {
        match self {
            Front::At(row) => Some(row),
            _ => None,
        }
    }
}
