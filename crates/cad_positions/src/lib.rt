//! Positions of features: in the order of their values, and in ascending order from sets that meet and join.
//!
//! - [`Ranking`]: positions in the order of their values, and each position's rank
//! - [`Found`]: the positions between two ranks, counted, or as they are best walked
//! - [`Positions`]: those positions in a list, if they are few, or by their ranks
//! - [`RowSource`]: positions that are taken one after the other, or sought
//! - [`Source`]: a tree of sources: all positions, those of a list, those between two ranks, those of both of two sources or of either
//! - [`join_all`], [`meet_all`]: many sources as one tree, balanced
//! - [`Rows`]: a tree as a [`RowSource`]
//!
//! Of the values 5, none, 3, 4 at the positions 0 to 3, the positions by value are 2, 3, 0, so position 0 has rank 2 and
//! position 1 has no rank. Between the ranks 1 and 3 lie the positions 0 and 3.
//!
//! The list 2, 5, 7 joined with the list 5, 8 gives 2, 5, 7, 8; met with it, only 5. After a seek to 6 in the joined, 7 and 8 are left.
#![tactic(auto)]

mod balanced;
mod found;
mod front;
mod listed;
mod positions;
mod ranking;
mod ranks;
mod row_source;
mod rows;
mod settling;
mod source;

pub use balanced::{join_all, meet_all};
pub use found::Found;
pub use positions::Positions;
pub use ranking::Ranking;
pub use row_source::RowSource;
pub use rows::Rows;
pub use source::Source;
