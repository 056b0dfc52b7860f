//! A part of a right.

ghost use Rattle.std.specs.Prelude.{◌≤◌};

/// A part of a right: a fraction above 0 and at most 1, kept as it was given.
#[derive(Clone, Copy, Debug, PartialEq, Eq)]
pub struct Share {
    num: u32,
    den: u32,
    /// It is more than nothing.
    pub ghost some: { 1 ≤ num },
    /// It is at most the whole.
    pub ghost within: { num ≤ den },
    /// The whole is divided into at most this many parts.
    pub ghost small: { den ≤ 1000000000 },
}

impl Share {
    ghost use Rattle.std.specs.Prelude.{◌≡◌, MatchOption};
    ghost use Rattle.cad_versions.specs.Fractions.{IsShare, num_of, den_of};

    /// `num` parts of `den`, where 1 <= num <= den <= 1,000,000,000.
    pub fn new(num: u32, den: u32) -> Option<Share>
        ensures { MatchOption result (¬ IsShare num den) (λ share. (num_of share ≡ num) ×
            (den_of share ≡ den)) }
    {
        if 1 <= num && num <= den && den <= 1_000_000_000 {
            Some(Share { num, den })
        } else {
            None
        }
    }

    /// The parts of the share, from 1 to `den`.
    pub fn num(self) -> u32
        ensures { result ≡ num_of self }
    {
        self.num
    }

    /// The parts of the whole, at most 1,000,000,000.
    pub fn den(self) -> u32
        ensures { result ≡ den_of self }
    {
        self.den
    }
}
