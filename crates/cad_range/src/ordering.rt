//! The order of values of one kind. No memory is taken.

ghost use Rattle.std.specs.Prelude.{◌≡◌};
ghost use Rattle.cad_feature.specs.Limits.{scalar_datum};
ghost use Rattle.cad_range.specs.Ranges.{compared};

use cad_day::Day;
use cad_feature::Scalar;
use cql_text::compare;
use std::cmp::Ordering;

/// A type of the values of one kind that has an order.
pub(crate) trait HasOrder {
    ghost use Rattle.std.specs.Prelude.{◌≡◌, true};
    ghost use Rattle.cad_feature.specs.Limits.{scalar_datum};
    ghost use Rattle.cad_feature.specs.Values.{Datum};
    ghost use Rattle.cad_range.specs.Ranges.{compared, has_order};

    ghost datum: { Self → Datum };

    ghost has_one: { (x : Self) → has_order (datum x) ≡ true };

    /// How it compares with a scalar, if they are of one kind.
    fn against(&self, scalar: &Scalar) -> Option<Ordering>
        ensures { result ≡ compared (datum self.now) (scalar_datum scalar.now) };
}

impl HasOrder for i64 {
    ghost use Rattle.std.specs.Prelude.{refl};
    ghost use Rattle.cad_feature.specs.Values.{a_whole};

    ghost datum = { a_whole };

    ghost has_one = { λ x. refl };

    fn against(&self, scalar: &Scalar) -> Option<Ordering> {
        match scalar {
            Scalar::Whole(number) => Some(self.cmp(number)),
            _ => None,
        }
    }
}

impl HasOrder for Day {
    ghost use Rattle.std.specs.Prelude.{refl};
    ghost use Rattle.cad_feature.specs.Values.{a_day};

    ghost datum = { a_day };

    ghost has_one = { λ x. refl };

    fn against(&self, scalar: &Scalar) -> Option<Ordering> {
        match scalar {
            Scalar::Day(day) => Some(self.number().cmp(&day.number())),
            _ => None,
        }
    }
}

impl HasOrder for String {
    ghost use Rattle.std.specs.Prelude.{chars, refl, string_bytes};
    ghost use Rattle.cad_feature.specs.Values.{a_text};

    ghost datum = { λ s. a_text (chars (string_bytes s)) };

    ghost has_one = { λ x. refl };

    fn against(&self, scalar: &Scalar) -> Option<Ordering> {
        match scalar {
            Scalar::Text(text) => Some(compare(self.as_str(), text.as_str())),
            _ => None,
        }
    }
}

/// How one value compares with another, if they are of one kind.
pub fn order(first: &Scalar, second: &Scalar) -> Option<Ordering>
    ensures { result ≡ compared (scalar_datum first.now) (scalar_datum second.now) }
{
    match first {
        Scalar::Text(text) => text.against(second),
        Scalar::Whole(number) => number.against(second),
        Scalar::Day(day) => day.against(second),
    }
}
