//! Properties of features.

use crate::attribute::Attribute;

/// The kind of a property's values.
#[derive(Clone, Copy, PartialEq, Eq, Debug)]
pub enum PropertyKind {
    /// Characters.
    Text,
    /// A whole number of 64 bits.
    Whole,
    /// True or false.
    Flag,
    /// A day of the calendar.
    Day,
    /// The days from one to another.
    Span,
    /// A point.
    Spot,
    /// A region.
    Area,
}

/// A property that each feature of a collection has, possibly without a value.
#[derive(Clone, Copy, Debug)]
pub struct Property {
    /// Its name in filters and replies.
    pub name: &'static str,
    /// The kind of its values.
    pub kind: PropertyKind,
    /// What it says of a version.
    pub attribute: Attribute,
}
