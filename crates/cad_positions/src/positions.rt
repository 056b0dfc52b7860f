//! Positions in the form that is best walked.

/// Positions, in a list or by their ranks.
#[derive(Debug, Drop)]
pub enum Positions<'a> {
    /// The positions, in ascending order.
    Listed(Vec<u32>),
    /// Those whose ranks lie from `from` on, below `to`. `ranks` holds the rank of each position.
    Ranked {
        ranks: &'a [u32],
        from: u32,
        to: u32,
    },
}
