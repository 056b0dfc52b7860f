//! Why hosting ended.

/// Why hosting ended.
#[derive(Clone, Copy, Debug, PartialEq, Eq)]
pub enum Stopped {
    /// The land office asked for it.
    Asked,
    /// The register's database refused.
    StoreRefused,
    /// As many rounds were made as there may be, 2 ^ 64 - 1.
    RoundsSpent,
}
