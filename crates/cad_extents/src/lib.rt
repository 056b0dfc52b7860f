//! Between which values those of some features lie, property by property.
//!
//! - [`Extents`]: of each property, between which whole numbers its values lie, which numbers and texts may be among them, and which
//!   squares of eight by eight cells its shapes may touch; no feature has a value outside of them.
//!
//! Of the parcels 3 and 7, only 3 has an area, 390. So no feature has an `object` from 8 to 9, an `area` above 390, or a shape that
//! touches no square that a shape of either touches. None has the `object` 5: of its four places among 65,536, at least one is not
//! marked. The extents do not say whether a feature has a `label` between two given ones.
#![tactic(auto)]

mod cells;
mod covered;
mod extent;
mod extents;
mod noted;
mod places;
mod values;

pub use extents::Extents;
