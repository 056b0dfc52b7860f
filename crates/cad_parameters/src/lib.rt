//! What a request for features asks by its parameters, and the links that a page of features carries.
//!
//! - `Pair`: a parameter; `read_pairs` reads the pairs of a query
//! - `read_identifier`: the `Identifier` of a version, of `cad_versions`, that a text such as `3.1` names
//! - `Selection`, `filter_text` and `Continuation`: what the pairs ask for; they are read in this order
//! - `ParameterFault`: why pairs are refused, except for the filter, in the order in which the faults are looked for
//! - `self_target` and `next_target`: the targets of the links to a page and to the one after it
//! - `laws`: that no fault is reported exactly if the pairs have none, and that pairs are written and read back unchanged
//!
//! The pairs of `limit=2&datetime=2012-05-01` are (`limit`, `2`) and (`datetime`, `2012-05-01`); they select at most 2 features of that
//! day. If the last feature of the page at revision 10 is 2.1, `next_target` over `/collections/parcels/items` is
//! `/collections/parcels/items?limit=2&datetime=2012-05-01&revision=10&after=2.1`.
#![tactic(auto)]

mod boxes;
mod continuation;
mod fault;
mod identifier;
pub mod laws;
mod links;
mod names;
mod numerals;
mod pairs;
mod parts;
mod selection;

pub use cad_versions::Identifier;
pub use continuation::Continuation;
pub use fault::ParameterFault;
pub use identifier::read_identifier;
pub use links::{next_target, self_target};
pub use names::filter_text;
pub use pairs::{Pair, read_pairs};
pub use selection::Selection;
