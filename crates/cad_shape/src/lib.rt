//! Shapes on the register's plane, in whole millimetres, judged exactly.
//!
//! - `Point`: a point no coordinate of which is farther from 0 than `FARTHEST`, 100,000 kilometres.
//! - `Bounds`: a closed box with sides along the axes.
//! - `Ring`: a simple closed line with area through 3 to 1,000 corners; `RingFault` says why a list of corners is not a ring.
//! - `Region`: an outer ring and the holes in it, at most 100 rings; `RegionFault` says why a list of rings is not a region.
//! - `Shape`: a point, a box or a region; `ShapeRef`: the same with the region borrowed.
//! - `segments_meet`: whether two segments share a point.
//! - `in_region`: whether a point lies in a region.
//! - `meets`, `within`, `bounds`: whether two shapes share a point, whether one lies within another, and the least box
//!   that holds a shape.
//! - `laws`: what holds of all these, beyond what each call says.
//!
//! The corners (0, 0), (10, 0), (10, 10), (0, 10) are a ring. In its region lie (5, 5) and (10, 5), the second on an edge:
//! `meets` says yes of both, `within` of the first alone. With the hole (4, 4), (6, 4), (6, 6), (4, 6) the point (5, 5) does
//! not lie in the region, and (4, 5), on an edge of the hole, does. The corners (0, 0), (10, 10), (10, 0), (0, 20) are no ring:
//! the fault is `Crosses { first: 0, second: 2 }`, though the two edges share no whole point.
//!
//! Coordinates are whole, so that each test is a sign of a number of at most 128 bits and none is rounded. No test takes
//! memory.
#![tactic(auto)]

mod area;
mod boxes;
mod crossing;
mod extremes;
pub mod laws;
mod location;
mod meeting;
mod point;
mod polygon;
mod region;
mod relation;
mod ring;
mod segment;
mod shape;

pub use boxes::Bounds;
pub use location::in_region;
pub use point::{FARTHEST, Point};
pub use polygon::{Region, RegionFault};
pub use relation::{bounds, meets, within};
pub use ring::{Ring, RingFault};
pub use segment::segments_meet;
pub use shape::{Shape, ShapeRef};
