//! What a request for the features of a collection asks: the parameters of its query, and its filter.
//!
//! - [`Ask`]: what is asked; `Ask::read` reads it from a query
//! - [`AskFault`]: why a query is refused; the faults are looked for in the order of their numbers
//! - [`fault_body`]: the body that names such a fault, as JSON
//! - [`laws`]: a query has at most one first fault, that of the lowest number, and then asks for nothing; the query of the next page asks
//!   the same
//!
//! Asked of parcels, `filter=area+%3E+400&limit=2` asks for at most two features whose area is above 400. The first fault of
//! `limit=2&filter=label+%3E+5` is `AskFault::Filter` with the cause `WrongKind` at place 8.
#![tactic(auto)]

mod ask;
mod fault;
mod fault_text;
pub mod laws;

pub use ask::Ask;
pub use fault::AskFault;
pub use fault_text::fault_body;
