//! Comparisons, by the order of their operands.

ghost use Rattle.std.specs.Prelude.{◌≡◌};
ghost use Rattle.cql_meaning.specs.Sides.{stands as stands_of};

use cql_lexer::Comparison;
use std::cmp::Ordering;

/// Whether a comparison holds of two operands that have that order.
pub(crate) fn stands(by: Comparison, order: Ordering) -> bool
    ensures { result ≡ stands_of by order }
{
    match by {
        Comparison::Equal => order.is_eq(),
        Comparison::Unequal => order.is_ne(),
        Comparison::Less => order.is_lt(),
        Comparison::Greater => order.is_gt(),
        Comparison::AtMost => order.is_le(),
        Comparison::AtLeast => order.is_ge(),
    }
}
