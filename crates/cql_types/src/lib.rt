//! From the tree of a filter to a filter whose kinds fit.
//!
//! - [`check`]: the filter of a collection that a tree spells. Of the parcels, `area > 400` is the property at place 6
//!   compared with the constant 400; of `label > 5` it reports that the 5 is of the wrong kind.
//! - [`Filter`] and the terms of each kind: a term of one kind cannot hold another.
//! - [`TypeFault`]: what is wrong with a tree, and where.
//! - [`laws`]: a tree has one kind or a fault, and at one place one fault.
#![tactic(auto)]

mod checking;
mod collect;
mod combine;
mod fault;
mod filter;
mod judged;
pub mod laws;
mod leaf;
mod literal;
mod number;

pub use checking::check;
pub use cql_tree::Operation;
pub use fault::{Fault, Misuse, TypeFault};
pub use filter::{
    AnyTerm, DayTerm, EndTerm, Filter, FlagTerm, ShapeTerm, SpanTerm, Step, TextTerm, WholeTerm,
};
