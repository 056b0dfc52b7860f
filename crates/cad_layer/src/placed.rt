//! Elements that have a place in the order of identifiers.

use crate::Change;
use cad_feature::Feature;
use std::cmp::Ordering;

/// An element that has a place in an order.
pub(crate) trait Placed: Drop {
    ghost use Rattle.std.specs.Prelude.{◌≡◌};
    ghost use Rattle.std.specs.Cmp.{IsTotalOrder};
    ghost use Rattle.std.specs.declared.cmp.Ordering.{Ordering as OrderingOf};

    ghost order: { Self → Self → OrderingOf };

    /// How it compares with another.
    fn stands_to(&self, other: &Self) -> Ordering
        ensures { result ≡ order self.now other.now };

    ghost total: { IsTotalOrder order };
}

impl Placed for Feature {
    ghost use Rattle.cad_feature.specs.Features.{by_identifier};
    ghost use Rattle.cad_layer.specs.lemmas.ItemLemmas.{items_total};

    ghost order = { by_identifier };

    ghost total = { items_total };

    fn stands_to(&self, other: &Feature) -> Ordering {
        self.compare(other)
    }
}

impl Placed for Change {
    ghost use Rattle.cad_feature.specs.Features.{by_identifier};
    ghost use Rattle.cad_layer.specs.lemmas.ItemLemmas.{items_total};

    ghost order = { by_identifier };

    ghost total = { items_total };

    fn stands_to(&self, other: &Change) -> Ordering {
        self.feature().compare(other.feature())
    }
}
