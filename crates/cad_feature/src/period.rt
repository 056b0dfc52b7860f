//! The revisions at which a feature has its values.

ghost use Rattle.std.specs.Prelude.{◌≡◌};
ghost use Rattle.cad_feature.specs.Periods.{always, is_within};

/// The revisions from one on, up to before another, as a system-time period of SQL has the times of a row.
///
/// There are fewer revisions than 2^32 - 1, so a period that ends there has no end yet.
#[derive(Clone, Copy, Debug)]
pub struct Period {
    /// The first revision.
    pub start: u32,
    /// The first revision after it.
    pub end: u32,
}

impl Period {
    /// The period of all revisions.
    pub fn always() -> Period
        ensures { result ≡ always }
    {
        Period {
            start: 0,
            end: u32::MAX,
        }
    }

    /// Whether the revision is one of them.
    pub fn contains(self, revision: u64) -> bool
        ensures { result ≡ is_within self revision }
    {
        u64::from(self.start) <= revision && revision < u64::from(self.end)
    }
}
