//! Two lists that ascend. The later one is put into the earlier one.

use crate::placed::Placed;
use std::cmp::Ordering;

/// The rest of two lists that ascend.
#[derive(Debug, Drop)]
pub(crate) struct Both<'a, T> {
    pub(crate) earlier: &'a [T],
    pub(crate) later: &'a [T],
}

impl<'a, T: Placed> Both<'a, T> {
    ghost use Rattle.std.specs.Prelude.{◌≡◌, ◌∷◌, [], MatchOption};
    ghost use Rattle.std.specs.List.Sorted.{IsStrictlySortedBy};
    ghost use Rattle.cad_layer.specs.Merging.{merged};

    /// A copy.
    pub(crate) fn again(&self) -> Both<'a, T>
        ensures earlier { result.earlier.now ≡ self.now.earlier.now }
        ensures later { result.later.now ≡ self.now.later.now }
    {
        Both {
            earlier: self.earlier,
            later: self.later,
        }
    }

    /// The next of both; a later one replaces an earlier one that is equal to it.
    pub(crate) fn next(&mut self) -> Option<&'a T>
        requires earlier { IsStrictlySortedBy T.order self.now.earlier.now }
        requires later { IsStrictlySortedBy T.order self.now.later.now }
        ensures earlier { IsStrictlySortedBy T.order self.new.earlier.now }
        ensures later { IsStrictlySortedBy T.order self.new.later.now }
        ensures next { MatchOption result (merged T.order self.old.earlier.now self.old.later.now ≡ [])
            (λ x. merged T.order self.old.earlier.now self.old.later.now ≡ x.now ∷ merged T.order self.new.earlier.now self.new.later.now) }
    {
        let Some((c, later)) = self.later.split_first() else {
            let (b, earlier) = self.earlier.split_first()?;
            self.earlier = earlier;
            return Some(b);
        };
        let Some((b, earlier)) = self.earlier.split_first() else {
            self.later = later;
            return Some(c);
        };
        match c.stands_to(b) {
            Ordering::Less => {
                self.later = later;
                Some(c)
            }
            Ordering::Equal => {
                self.earlier = earlier;
                self.later = later;
                Some(c)
            }
            Ordering::Greater => {
                self.earlier = earlier;
                Some(b)
            }
        }
    }
}
