//! Where positions come from.

ghost use Rattle.std.specs.Prelude.{◌≡◌, ◌≤◌, ◌^◌, ℕ, List, ◌∷◌, filter, length, nat_le, MatchOption};
ghost use Rattle.cad_positions.specs.Left.{StaysEmpty};
ghost use Rattle.std.specs.List.Sorted.{IsStrictlyIncreasing};

/// Positions that ascend, each once, no matter how they are kept. A source that gave nothing gives nothing again.
pub trait RowSource {
    /// The positions that are left.
    ghost left: { Self → List ℕ };

    /// Takes the first position that is left.
    fn next(&mut self) -> Option<u32>
        ensures { MatchOption result (StaysEmpty (left self.old) (left self.new)) (λ row. left self.old ≡ row ∷ left self.new) };

    /// Drops the positions that are left below a position. If that position was passed already, nothing is dropped.
    fn seek(&mut self, from: u32)
        ensures { left self.new ≡ filter (nat_le from) (left self.old) };

    /// They ascend, without duplicates.
    ghost ascends: { (s : Self) → IsStrictlyIncreasing (left s) };

    /// There are at most as many as positions of 32 bits.
    ghost bounded: { (s : Self) → length (left s) ≤ 2 ^ 32 };
}
