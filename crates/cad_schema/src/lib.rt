//! Collections of features, and the properties that their features have.
//!
//! - [`Collection`]: a kind of features, read from a path's name: `parcels` is `Collection::Parcels`.
//! - [`schema`]: the names and kinds of a collection's properties, in the order of a feature's values.
//! - [`find_property`]: a property by its name. Of the units, `name` is the property at place 5, a text.
//! - [`listed_properties`]: those that a feature lists, in byte order of their names.
//! - [`Attribute`]: what a property says of a version of an object.
//! - `laws`: a property's name determines its place, and its place its name.
#![tactic(auto)]

mod attribute;
mod collection;
pub mod laws;
mod property;
mod schemas;

pub use attribute::Attribute;
pub use collection::Collection;
pub use property::{Property, PropertyKind};
pub use schemas::{ListedProperty, find_property, listed_properties, schema};
