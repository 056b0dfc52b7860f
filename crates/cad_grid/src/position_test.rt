//! Which positions are counted.

ghost use Rattle.std.specs.Prelude.{◌≡◌, ℕ, Bool};

/// A test of positions.
pub trait PositionTest {
    /// Whether a position passes.
    ghost passes: { Self → ℕ → Bool };

    /// Whether the position passes.
    fn test(&self, position: u32) -> bool
        ensures { result ≡ passes self.now position };
}

/// Each position passes.
pub(crate) struct EveryPosition;

impl PositionTest for EveryPosition {
    ghost use Rattle.std.specs.Prelude.{true};

    ghost passes = { λ t position. true };

    fn test(&self, _position: u32) -> bool {
        true
    }
}
