//! Ordered indexes of features: the positions of a property's values in their order.
//!
//! - [`Ordered`]: built once over a property of kind text, whole number or day; gives the positions whose values lie in a
//!   range, or counts them.
//!
//! Of the areas 100, none and 300 at the positions 0 to 2, only the one at position 2 is above 100.
#![tactic(auto)]

mod key;
mod keys;
mod ordered;
mod text_key;
mod texts;

pub use ordered::Ordered;
