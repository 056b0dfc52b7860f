//! How a stream ends.

/// What happens after the last byte that is given or taken.
#[derive(Clone, Copy, Debug, PartialEq, Eq)]
pub enum Stop {
    /// A call gives or takes nothing.
    Ends,
    /// A call fails.
    Fails,
}
