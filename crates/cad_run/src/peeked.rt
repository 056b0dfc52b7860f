//! A source whose first feature is looked at before it is taken.

use crate::first_later::comes_after;
use crate::indexed_source::IndexedSource;
use cad_feature::Feature;
use cad_versions::ObjectId;
use std::cmp::Ordering;

/// The rest of a source, behind the feature that was looked at and not taken yet.
#[derive(Drop)]
pub(crate) struct Peeked<'a, S> {
    source: S,
    front: Option<&'a Feature>,
}

impl<'a, S: IndexedSource<'a>> Peeked<'a, S> {
    ghost use Rattle.std.specs.Prelude.{◌≡◌, [], ◌∷◌, MatchOption, Some};
    ghost use Rattle.cad_run.specs.Peeked.{peeked_left, stands_first, without};
    ghost use Rattle.cad_run.specs.Slices.{identifier, later};

    /// The source, before any of its features is looked at.
    pub(crate) fn new(source: S) -> Self
        ensures { peeked_left S.left result ≡ S.left source }
    {
        Peeked {
            source,
            front: None,
        }
    }

    /// The first feature, which stays in the source.
    pub(crate) fn peek(&mut self) -> Option<&'a Feature>
        ensures kept { peeked_left S.left self.new ≡ peeked_left S.left self.old }
        ensures front { self.new.front ≡ result }
        ensures none { MatchOption result (peeked_left S.left self.old ≡ []) (λ x. peeked_left S.left self.old ≡ x.now ∷ S.left self.new.source) }
    {
        if self.front.is_none() {
            self.front = self.source.next();
        }
        self.front
    }

    /// Takes the first.
    pub(crate) fn next(&mut self) -> Option<&'a Feature>
        ensures { MatchOption result ((peeked_left S.left self.old ≡ []) × (peeked_left S.left self.new ≡ [])) (λ x. peeked_left S.left self.old ≡ x.now ∷ peeked_left S.left self.new) }
    {
        let first = self.peek();
        self.front = None;
        first
    }

    /// Drops the features up to the named one.
    pub(crate) fn seek(&mut self, last: (ObjectId, u32))
        ensures { peeked_left S.left self.new ≡ later (Some (identifier last)) (peeked_left S.left self.old) }
    {
        self.source.seek(last);
        let Some(front) = self.front else {
            return;
        };
        if !comes_after(front, last) {
            self.front = None;
        }
    }

    /// Whether the change is before all of them, or replaces the first, which is dropped.
    pub(crate) fn give_way(&mut self, change: &Feature) -> bool
        ensures first { result ≡ stands_first change.now (peeked_left S.left self.old) }
        ensures rest { peeked_left S.left self.new ≡ without change.now (peeked_left S.left self.old) }
    {
        let Some(first) = self.peek() else {
            return true;
        };
        match change.compare(first) {
            Ordering::Less => true,
            Ordering::Equal => {
                self.front = None;
                true
            }
            Ordering::Greater => false,
        }
    }
}
