//! Pages of the features of a layer, by the candidates of a plan.
//!
//! - [`page`]: the first of a plan's candidates that pass a test, after a named one, and whether more are left: a
//!   [`Page`], with how many were tested
//! - [`FeatureSource`]: features that are taken one after the other, in the order of identifiers, or dropped up to a named one
//! - [`Candidates`]: a plan's candidates as such a source, which asks the indexes of a segment when it comes to it
//! - [`Kept`]: the features of any source that a test keeps, and how many were tested
//! - [`RowSource`]: positions one after the other, from which a base's candidates are made
//! - [`page_of`]: the same of any source
//! - [`candidate_count`], [`count_of`]: how many candidates a plan has, and how many features a source has left
//! - [`FeatureTest`]: a test of features
//! - [`Search`], [`Search::piece`]: the search for a page in pieces of bounded work. It borrows nothing, so commands may be entered and other
//!   requests answered between its pieces
//! - [`SteppedSource`]: features that are taken by steps, each of which asks the indexes of one segment at most
//! - [`CountedSource`], [`CountedTest`]: sources and tests that count, so that contracts can bound the work; [`Counted`], [`Counting`]: any
//!   source and any test as such
//! - [`page_in_pieces`]: the pieces of a search, joined, are the page
//! - [`Layer`], [`Plan`]: the features with their indexes, and which of them are looked at
//!
//! Take the parcels 1.1, 1.2, 2.1, 3.1 and 4.1, the plan of the range of `object` up to 2, and a test that any feature passes. The page
//! of one feature after 1.1 is 1.2. More are left, since 2.1 is a candidate, and both were tested.
#![tactic(auto)]

mod bases;
mod candidacy;
mod candidates;
mod counted;
mod counted_source;
mod counted_test;
mod counting;
mod feature_source;
mod feature_test;
mod finding;
mod first_later;
mod indexed_candidates;
mod indexed_source;
mod joining;
mod kept;
mod later_one;
mod opens;
mod paging;
mod parts;
mod peeked;
mod piecewise;
mod planned;
mod presence;
mod replaced;
mod rows;
mod search;
mod segment_candidates;
mod segment_end;
mod segments_left;
mod sought;
mod stepped_source;
mod stepping;

pub use cad_layer::Layer;
pub use cad_lookup::Plan;
pub use cad_positions::RowSource;
pub use candidates::Candidates;
pub use counted::{Counted, Counting};
pub use counted_source::CountedSource;
pub use counted_test::CountedTest;
pub use counting::{candidate_count, count_of};
pub use feature_source::FeatureSource;
pub use feature_test::FeatureTest;
pub use kept::Kept;
pub use opens::Opens;
pub use paging::{page, page_of};
pub use piecewise::page_in_pieces;
pub use rows::Page;
pub use search::{Progress, Search};
pub use stepped_source::{Step, SteppedSource};
