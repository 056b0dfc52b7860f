//! The tree of a filter.
//!
//! - [`Tree`]: a filter, whose places ascend in the order of reading
//! - [`Expression`]: a filter or a part of one, each name, literal and keyword at its place. `NOT area BETWEEN 5 AND 7` is `Not` at
//!   place 0, over `Between` of the name at place 4 and the numbers at places 17 and 23.
//! - [`Operand`]: a further part of a sum or a product, and the [`Operation`] before it.
//! - [`Bound`], [`Number`], [`Corner`], [`Ring`]: what literals of several parts hold.
//!
//! The definitions say what a tree is without its place in memory (`Syntax`, `Views`), and that its places ascend in the order of
//! reading (`Order`).
#![tactic(auto)]

mod expression;
mod tree;

pub use expression::{Bound, Corner, Expression, Number, Operand, Operation, Ring};
pub use tree::Tree;
