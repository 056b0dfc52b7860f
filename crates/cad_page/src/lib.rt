//! The bodies of what is asked of a collection: a page of its features, one feature, and the fault of a query.
//!
//! - [`body`]: the page that a request asks for, of a snapshot of its revision
//! - [`next_link`]: the target of the link to the page after it
//! - [`explain`]: which features are examined for it: a [`Report`]
//! - [`page_full_plan`], [`page_counts`], [`counted_plan`]: the plan for it in pieces of bounded work: the leaves that it may have, some of
//!   their counts, and the choice. [`page_plan`] is the same at once
//! - [`first_search`], [`page_piece`], [`found_body`]: the same page in pieces of bounded work: the search, which borrows nothing, a piece of
//!   it, and the body when it is over
//! - [`test_weight`]: how long a feature is tested at most, by which a piece's bound is chosen
//! - [`feature_body`]: one feature
//! - [`Ask`], [`fault_body`], [`Snapshot`], and the bodies that show no features (such as `landing_body`): from the crates below
//! - [`as_bytes`]: the same bodies and link as bytes
//! - `laws`: that requests that ask the same have the same page and the same answer; that the link's target is read back as the same
//!   request, at the page's revision and after its last feature
//!
//! Each body is compact text, with the members of each object in byte order of their names. The contracts give the content of a body as a
//! tree of JSON. With an empty register, `/collections/parcels/items` has the body
//! `{"features":[],"links":[{"href":"/collections/parcels/items","rel":"self","type":"application/json"}],"numberReturned":0,"revision":0,"type":"FeatureCollection"}`.
#![tactic(auto)]

pub mod as_bytes;
mod counted;
mod explaining;
mod features;
mod finding;
pub mod laws;
mod links;
mod pages;
mod piecing;
mod planning;
mod sending;
mod weights;

pub use cad_answer::{Plan, Progress, Search};
pub use cad_ask::{Ask, AskFault, fault_body};
pub use cad_history::Snapshot;
pub use cad_json::{
    collection_body, collections_body, filter_fault_body, landing_body, queryables_body, word_body,
};
pub use counted::{counted_plan, page_counts, page_full_plan};
pub use cql_filter::Cause;
pub use explaining::{Report, explain};
pub use features::feature_body;
pub use pages::{body, found_body, next_link};
pub use piecing::{first_search, page_piece};
pub use planning::page_plan;
pub use weights::test_weight;
