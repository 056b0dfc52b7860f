//! What a request wants of the register: a page of features, one feature, or nothing, if its response is known without the register.
//!
//! - [`ParsedRequest`]: a [`FeatureRequest`], or a [`Response`] that needs no register; `ParsedRequest::of` makes it from the resource that
//!   is requested, or from the check that failed
//! - [`FeatureRequest`]: a page of features that is asked for, or one feature
//! - [`Response`]: the status and the JSON body of a reply
//!
//! For the resource `/collections/parcels/items` and the query `limit=0`, `ParsedRequest::of` answers `ParsedRequest::Immediate` with
//! `Status::BadRequest` and the body `{"fault":"limit"}`; for `limit=2` it answers `ParsedRequest::Features` with a `FeatureRequest::Page`.
//! For `/collections/parcels/items/03.1` it answers `ParsedRequest::Immediate` with `Status::NotFound` and `{"fault":"no-feature"}`.
#![tactic(auto)]

mod feature;
mod feature_request;
mod page;
mod plain;
mod request;
mod response;

pub use feature_request::FeatureRequest;
pub use request::ParsedRequest;
pub use response::Response;
