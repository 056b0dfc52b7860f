//! Which features of a collection answer a query, and a page of them.
//!
//! - [`PageQuery`]: days, a box and a filter that restrict an answer, the normal form of box and filter, by which features are
//!   tested, and which part of the answer is wanted
//! - [`page`]: the first features that answer, after one that is named, and whether more are left: a [`Page`]. It examines the candidates
//!   of a [`Plan`] among the features of a revision: [`FeaturesAt`]
//! - [`piece`]: a piece of the search for that page, of bounded work, by a [`Search`] that was begun
//! - [`page_at`]: the same of those that pass any test
//! - [`candidate_count`]: how many candidates a plan has among these features
//! - `laws`: that pages ascend and are full, and that the pages of a walk, joined, are the whole answer. If a plan covers the answer, its
//!   candidates that answer are all that answer
//!
//! An example: the parcels are 1.1, 1.2, 2.1, 3.1 and 4.1, and all but 1.1 are open since 2010. For the query with the days of 2012-05-01
//! and a limit of 2, the page is 1.2, 2.1, and more is left. After 2.1 the page is 3.1, 4.1, and none is left.
#![tactic(auto)]

mod answer;
mod candidates;
mod counting;
pub mod laws;
mod lifespans;
mod list_candidates;
mod paging;
mod past_candidates;
mod piecing;
mod query;
mod query_test;
mod stepping;

pub use cad_history::FeaturesAt;
pub use cad_run::{Page, Plan, Progress, Search};
pub use counting::candidate_count;
pub use paging::{page, page_at};
pub use piecing::piece;
pub use query::PageQuery;
