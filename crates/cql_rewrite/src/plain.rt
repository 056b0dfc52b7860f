//! What a comparison reduces to if an operand is a constant.

ghost use Rattle.std.specs.Prelude.{◌≡◌, true, IfOk, Some, is_some};
ghost use Rattle.std.specs.declared.cmp.Ordering.{Ordering as OrderingOf};
ghost use Rattle.cad_feature.specs.Features.{Item, datum_at};
ghost use Rattle.cad_feature.specs.Limits.{scalar_datum};
ghost use Rattle.cad_range.specs.Ranges.{compared as order_of, holds_of};
ghost use Rattle.cql_meaning.specs.Sides.{stands as stands_of};
ghost use Rattle.cql_rewrite.specs.Terms.{is_ranged, said_by, side_of_test, turned_of};

use cad_range::{Edge, Range, Scalar};
use cql_lexer::Comparison;
use std::alloc::{AllocError, Global};
use std::cmp::Ordering;

/// What a comparison reduces to.
#[derive(Drop)]
pub(crate) enum Plain {
    /// The same on every feature.
    Decided(bool),
    /// An operand has no value on any feature.
    Never,
    /// A property compared with a constant.
    Compared {
        property: usize,
        by: Comparison,
        scalar: Scalar,
    },
    /// Anything else.
    Other,
}

pub(crate) fn stands(by: Comparison, order: Ordering) -> bool
    ensures { result ≡ stands_of by order }
{
    match by {
        Comparison::Equal => order.is_eq(),
        Comparison::Unequal => order.is_ne(),
        Comparison::Less => order.is_lt(),
        Comparison::Greater => order.is_gt(),
        Comparison::AtMost => order.is_le(),
        Comparison::AtLeast => order.is_ge(),
    }
}

/// The comparison with its operands exchanged.
pub(crate) fn turned(by: Comparison) -> Comparison
    ensures { result ≡ turned_of by }
{
    match by {
        Comparison::Equal => Comparison::Equal,
        Comparison::Unequal => Comparison::Unequal,
        Comparison::Less => Comparison::Greater,
        Comparison::Greater => Comparison::Less,
        Comparison::AtMost => Comparison::AtLeast,
        Comparison::AtLeast => Comparison::AtMost,
    }
}

/// The comparison, or the one that holds if it does not.
pub(crate) fn sided(by: Comparison, side: bool) -> Comparison
    ensures fails { (o : OrderingOf) → stands_of result o ≡ side_of_test side (stands_of by o) }
    ensures same { side ≡ true → result ≡ by }
{
    if side {
        return by;
    }
    match by {
        Comparison::Equal => Comparison::Unequal,
        Comparison::Unequal => Comparison::Equal,
        Comparison::Less => Comparison::AtLeast,
        Comparison::Greater => Comparison::AtMost,
        Comparison::AtMost => Comparison::Greater,
        Comparison::AtLeast => Comparison::Less,
    }
}

// A range, in an answer that may have no range.
fn range(property: usize, low: Edge, high: Edge) -> Option<Range>
    ensures { result ≡ Some (record { property = property; low = low; high = high }) }
{
    Some(Range {
        property,
        low,
        high,
    })
}

/// The range of the values of which a comparison with a constant holds. `None` for `<>`.
pub(crate) fn plain_range(
    alloc: Global,
    property: usize,
    by: Comparison,
    scalar: Scalar,
) -> Result<Option<Range>, AllocError>
    ensures says { IfOk result (λ r. (x : Item) → said_by r x (holds_of (stands_of by) (order_of (datum_at x property) (scalar_datum scalar))) ≡ holds_of (stands_of by) (order_of (datum_at x property) (scalar_datum scalar))) }
    ensures is_there { IfOk result (λ r. is_some r ≡ is_ranged by) }
{
    match by {
        Comparison::Equal => {
            let low = scalar.copy(alloc)?;
            Ok(range(property, Edge::With(low), Edge::With(scalar)))
        }
        Comparison::Unequal => Ok(None),
        Comparison::Less => Ok(range(property, Edge::Free, Edge::Without(scalar))),
        Comparison::Greater => Ok(range(property, Edge::Without(scalar), Edge::Free)),
        Comparison::AtMost => Ok(range(property, Edge::Free, Edge::With(scalar))),
        Comparison::AtLeast => Ok(range(property, Edge::With(scalar), Edge::Free)),
    }
}
