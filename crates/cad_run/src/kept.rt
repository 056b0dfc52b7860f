//! Features that pass a test, counted.

ghost use Rattle.std.specs.Prelude.{◌≡◌, ◌+◌, ◌^◌, ◌<◌, ◌≤◌, ℕ, suc, [], ◌∷◌, filter, length, IfOk, MatchOption};
ghost use Rattle.cad_run.specs.Pages.{examined_of};

use crate::feature_source::FeatureSource;
use crate::feature_test::FeatureTest;
use cad_feature::Feature;
use std::alloc::AllocError;

/// A source whose features are tested, and how many were tested.
#[derive(Drop)]
pub struct Kept<S> {
    source: S,
    examined: u64,
}

impl<'a, S: FeatureSource<'a>> Kept<S> {
    /// A source of which nothing was tested yet.
    pub fn new(source: S) -> Self
        ensures source { result.source ≡ source }
        ensures examined { result.examined ≡ 0 }
    {
        Kept {
            source,
            examined: 0,
        }
    }

    /// How many features were tested.
    pub fn examined(&self) -> u64
        ensures { result ≡ self.now.examined }
    {
        self.examined
    }

    /// The next feature that passes; those before it are taken too. An error means out of memory.
    pub fn kept<T: FeatureTest>(&mut self, test: &T) -> Result<Option<&'a Feature>, AllocError>
        requires few { self.old.examined + length (S.left self.old.source) < 2 ^ 64 }
        ensures rows { IfOk result (λ r. MatchOption r (filter (T.passes test.now) (S.left self.old.source) ≡ []) (λ x. filter (T.passes test.now) (S.left self.old.source) ≡ x.now ∷ filter (T.passes test.now) (S.left self.new.source))) }
        ensures more { IfOk result (λ r. MatchOption r (Unit {0}) (λ x. (n : ℕ) → self.old.examined + examined_of (T.passes test.now) (suc n) (S.left self.old.source) ≡ self.new.examined + examined_of (T.passes test.now) n (S.left self.new.source))) }
        ensures last { IfOk result (λ r. MatchOption r (Unit {0}) (λ x. self.old.examined + examined_of (T.passes test.now) 0 (S.left self.old.source) ≡ self.new.examined)) }
        ensures none { IfOk result (λ r. MatchOption r ((n : ℕ) → self.old.examined + examined_of (T.passes test.now) n (S.left self.old.source) ≡ self.new.examined) (λ x. Unit {0})) }
        ensures few { IfOk result (λ r. MatchOption r (Unit {0}) (λ x. self.new.examined + length (S.left self.new.source) ≤ self.old.examined + length (S.left self.old.source))) }
    {
        while let Some(feature) = self.source.next()? {
            self.examined += 1;
            if test.test(feature)? {
                return Ok(Some(feature));
            }
        }
        Ok(None)
    }
}
