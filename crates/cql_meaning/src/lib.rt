//! What a filter says of a feature.
//!
//! [`truth`] says whether a filter is true or false of a feature, or neither because a value is missing. For
//! `NOT area > 390` it says Yes if the area is 380, No if it is 400, and Unknown if the feature has no area.
//! `like("ß", "_")` is true, and `fold("Ana Straße")` is `ana strasse`.
//!
//! - [`truth`], [`Truth`]: what a filter says of a feature
//! - [`like`], [`fold`]: whether a text is like a pattern, and a text with its case folded, which are those of `cql_text`
//! - [`constant_whole`], [`constant_text`]: the value of a term without a property
//! - [`laws`]: what holds of filters and of values, beyond what the call says
#![tactic(auto)]

mod comparison;
mod constant;
mod decide;
mod flag;
pub mod laws;
mod shape;
mod text;
mod time;
mod verdict;
mod whole;

pub use constant::{constant_text, constant_whole};
pub use cql_text::{fold, like};
pub use decide::truth;
pub use verdict::Truth;
