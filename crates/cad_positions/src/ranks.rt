//! Positions by their ranks.

ghost use Rattle.std.specs.Prelude.{◌≡◌, slice_index};
ghost use Rattle.cad_positions.specs.Held.{has_rank};

/// Whether the position is one below `end` whose rank lies from `from` to below `to`.
pub(crate) fn is_ranked(end: u32, ranks: &[u32], from: u32, to: u32, row: u32) -> bool
    ensures { result ≡ has_rank end ranks.now from to row }
{
    let rank = rank_of(ranks, row as usize);
    row < end && from <= rank && rank < to
}

/// The position's rank; 0 if it has none.
fn rank_of(ranks: &[u32], row: usize) -> u32
    ensures { result ≡ slice_index ranks.now row }
{
    if row < ranks.len() { ranks[row] } else { 0 }
}
