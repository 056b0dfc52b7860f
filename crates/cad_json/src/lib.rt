//! JSON bodies: features, what the server offers, and why a request is refused.
//!
//! The contracts describe a body as a tree of JSON, with the members of each object in byte order of their names. Its text is the compact
//! one that `serde_json` writes for it. Features are sent to its writer part by part, and no tree is made of them.
//!
//! - [`send_features`], [`send_linked_feature`]: the features of a list, and one with its links
//! - [`feature_text`]: the text of one feature
//! - [`landing_body`]: where the collections are
//! - [`collections_body`], [`collection_body`]: the collections, and one of them
//! - [`queryables_body`]: the properties of a collection that filters may name, as a JSON Schema
//! - [`word_body`], [`filter_fault_body`]: a fault by its word, and that of a filter by its cause and place
//! - [`collection_path`], [`items_path`]: the paths of a collection's resources
//! - [`send_link`]: a link, as each body carries them
//! - `laws`: what the trees of features hold, in terms of the features
//!
//! Version 1 of unit 10, which is named Mill and open since 2000-01-01, is
//! `{"geometry":null,"id":"10.1","properties":{"begin":"2000-01-01","end":null,"name":"Mill","number":1,"object":10},"type":"Feature"}`.
//! The body of the fault `bad-head` is `{"fault":"bad-head"}`; that of a part of a wrong kind at place 8 is
//! `{"cause":"WrongKind","fault":"filter","place":8}`.
#![tactic(auto)]

mod collections;
mod faults;
mod features;
mod landing;
pub mod laws;
mod links;
mod paths;
mod properties;
mod queryables;
mod shapes;
mod values;

pub use collections::{collection_body, collections_body};
pub use faults::{filter_fault_body, word_body};
pub use features::{feature_text, send_features, send_linked_feature};
pub use landing::landing_body;
pub use links::send_link;
pub use paths::{collection_path, items_path};
pub use queryables::queryables_body;
