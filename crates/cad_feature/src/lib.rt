//! The features of a register.
//!
//! - [`Feature`], [`Value`]: one version of an object, with its values in the order of the schema.
//! - [`FoldedText`], [`FoldedPattern`]: what texts are compared to with their case folded, mostly without a look at them.
//! - [`Period`]: the revisions at which a feature has its values.
//! - [`flatten`]: the features of a collection, from the versions of a register.
//! - [`StoredVersions`], [`VersionRows`]: the rows of each version, features with their periods, from the stored versions of a register.
//! - [`Collection`], [`schema`], [`find_property`]: the collections and their properties, of `cad_schema`.
//! - [`Range`], [`Edge`], [`Scalar`]: the values of one property from one end to another.
//! - `laws`: what holds of features, beyond what each call says.
//!
//! Version 1 of unit 10, named Mill from 2000-01-01 on, is the feature with the values `Whole(10)`, `Whole(1)`, `Day(2000-01-01)`, `Null`, `Span(2000-01-01, open)`, `Text("Mill")`.
#![tactic(auto)]

mod entries;
mod entry_names;
mod feature;
mod features_then;
mod flattening;
mod folded;
mod folded_pattern;
mod joining;
pub mod laws;
mod marks;
mod objects;
mod period;
mod range;
mod value;
mod values;
mod version_rows;

pub use cad_schema::{Collection, Property, PropertyKind, find_property, schema};
pub use feature::Feature;
pub use flattening::{flatten, is_in};
pub use folded::FoldedText;
pub use folded_pattern::FoldedPattern;
pub use period::Period;
pub use range::{Edge, Range, Scalar};
pub use value::Value;
pub use version_rows::{StoredVersions, VersionRows};
