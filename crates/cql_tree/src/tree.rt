//! The tree of a filter.

ghost use Rattle.cql_tree.specs.Order.{IsOrdered};
ghost use Rattle.cql_tree.specs.Views.{syntax_of};

use crate::expression::Expression;

/// The tree of a filter, by its root.
#[derive(Drop)]
pub struct Tree {
    /// The whole filter.
    pub root: Expression,
    /// The places ascend in the order of reading.
    pub ghost ordered: { IsOrdered (syntax_of root) },
}
