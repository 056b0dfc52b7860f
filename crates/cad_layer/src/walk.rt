//! Walks through features and the changes to them.

ghost use Rattle.std.specs.Prelude.{◌≡◌};

use crate::Change;
use crate::both::Both;
use crate::changed::changes_to;
use crate::finding::run_of;
use cad_feature::Feature;
use cad_versions::ObjectId;
use std::cmp::Ordering;
use std::marker::Model;

/// The rest of a walk: features of a base, older changes and recent ones, each by identifier.
///
/// Contracts see the features that are left, with the changes merged.
#[derive(Debug, Drop)]
pub struct Walk<'a> {
    indexed: Both<'a, Feature>,
    changes: &'a [Change],
}

impl<'a> Model for Walk<'a> {
    ghost use Rattle.std.specs.Prelude.{List};
    ghost use Rattle.cad_feature.specs.Features.{Item};
    ghost use Rattle.cad_layer.specs.Walks.{all_in, IsInOrder};

    ghost Value = { List Item };

    ghost view = { λ w. all_in (all_in w.indexed.earlier.now w.indexed.later.now) w.changes.now };

    ghost invariant = { λ w. IsInOrder w.indexed.earlier.now w.indexed.later.now × IsInOrder (all_in w.indexed.earlier.now w.indexed.later.now) w.changes.now };
}

impl<'a> Walk<'a> {
    ghost use Rattle.std.specs.Prelude.{◌≡◌, ◌∷◌, [], MatchOption};
    ghost use Rattle.cad_layer.specs.Identifiers.{of_object};
    ghost use Rattle.cad_layer.specs.Walks.{all_in, IsInOrder};
    ghost use Rattle.std.specs.List.Sorted.{IsStrictlySortedBy};
    ghost use Rattle.cad_feature.specs.Features.{by_identifier};

    /// The walk through all of a base, of older changes to it and of recent ones.
    pub(crate) fn new(base: &'a [Feature], older: &'a [Feature], changes: &'a [Change]) -> Walk<'a>
        requires indexed { IsInOrder base.now older.now }
        requires changes { IsStrictlySortedBy by_identifier changes.now }
        ensures { result ≡ all_in (all_in base.now older.now) changes.now }
    {
        let indexed = Both {
            earlier: base,
            later: older,
        };
        Walk { indexed, changes }
    }

    /// The walk through those features of the rest that are of that object.
    pub(crate) fn of_object(&self, object: ObjectId) -> Walk<'a>
        ensures { result ≡ of_object object self.now }
    {
        let indexed = Both {
            earlier: run_of(self.indexed.earlier, object),
            later: run_of(self.indexed.later, object),
        };
        let changes = changes_to(self.changes, object);
        Walk { indexed, changes }
    }

    /// The next feature; a change comes in place of the feature that it changes.
    pub fn next(&mut self) -> Option<&'a Feature>
        ensures { MatchOption result (self.old ≡ []) (λ x. self.old ≡ x.now ∷ self.new) }
    {
        let Some((c, changes)) = self.changes.split_first() else {
            return self.indexed.next();
        };
        let c = c.feature();
        let mut indexed = self.indexed.again();
        let Some(b) = indexed.next() else {
            self.changes = changes;
            return Some(c);
        };
        match c.compare(b) {
            Ordering::Less => {
                self.changes = changes;
                Some(c)
            }
            Ordering::Equal => {
                self.indexed = indexed;
                self.changes = changes;
                Some(c)
            }
            Ordering::Greater => {
                self.indexed = indexed;
                Some(b)
            }
        }
    }
}
