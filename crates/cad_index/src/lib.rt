//! Indexes of the features of a collection, by the values of their properties.
//!
//! - [`Ordered`]: the positions of a property's values in their order; [`Found`]: those in a range.
//! - [`Grid`]: the positions of a property's shapes by the cells that they touch.
//! - [`Indexes`]: an ordered index for each property of kind text, whole number or day, and a grid for each of kind spot or
//!   area.
//! - [`Base`]: features of a collection with their indexes.
//! - [`Shown`]: whether none of them, all, or perhaps a part have their values at a revision.
//! - [`laws`]: of which features the positions in a range, or near a box, are.
//!
//! Of the parcels 1 to 5, `object` is the property at place 0: its index gives the position 2 for the range from 3 to 3.
#![tactic(auto)]

mod base;
mod counting;
mod index;
mod indexes;
pub mod laws;
mod periods;

pub use base::Base;
pub use cad_grid::Grid;
pub use cad_ordered::Ordered;
pub use cad_positions::Found;
pub use index::Index;
pub use indexes::Indexes;
pub use periods::Shown;
