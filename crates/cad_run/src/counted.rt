//! Sources and tests whose work is counted.

use crate::counted_source::CountedSource;
use crate::counted_test::CountedTest;
use crate::feature_test::FeatureTest;
use crate::stepped_source::{Step, SteppedSource};
use cad_feature::Feature;
use cad_versions::ObjectId;
use std::alloc::AllocError;

/// A source with the number of its steps.
#[derive(Drop)]
pub struct Counted<S> {
    source: S,
    steps: u64,
}

impl<S> Counted<S> {
    ghost use Rattle.std.specs.Prelude.{◌≡◌};

    /// A source of which no step was made.
    pub fn new(source: S) -> Counted<S>
        ensures source { result.source ≡ source }
        ensures steps { result.steps ≡ 0 }
    {
        Counted { source, steps: 0 }
    }
}

impl<'a, S: SteppedSource<'a>> CountedSource<'a> for Counted<S> {
    ghost left = { λ it. S.left it.source };

    ghost ahead = { λ it. S.ahead it.source };

    ghost steps = { λ it. it.steps };

    fn step(&mut self) -> Result<Step<'a>, AllocError> {
        self.steps = self.steps.saturating_add(1);
        self.source.step()
    }

    fn seek(&mut self, last: (ObjectId, u32)) {
        self.source.seek(last);
    }
}

/// A test that counts the features that it tested.
#[derive(Drop)]
pub struct Counting<'t, T> {
    test: &'t T,
    tested: u64,
}

impl<'t, T> Counting<'t, T> {
    ghost use Rattle.std.specs.Prelude.{◌≡◌};

    /// A test that tested nothing.
    pub fn new(test: &'t T) -> Counting<'t, T>
        ensures test { result.test.now ≡ test.now }
        ensures tested { result.tested ≡ 0 }
    {
        Counting { test, tested: 0 }
    }

    /// How many features were tested.
    pub fn tested(&self) -> u64
        ensures { result ≡ self.now.tested }
    {
        self.tested
    }
}

impl<T: FeatureTest> CountedTest for Counting<'_, T> {
    ghost passes = { λ it. T.passes it.test.now };

    ghost tested = { λ it. it.tested };

    fn test(&mut self, feature: &Feature) -> Result<bool, AllocError> {
        self.tested = self.tested.saturating_add(1);
        self.test.test(feature)
    }
}
