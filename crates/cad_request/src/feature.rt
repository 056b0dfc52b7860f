//! Single features.

ghost use Rattle.std.specs.Prelude.{IfOk};
ghost use Rattle.cad_parameters.specs.Pairs.{pairs_of};
ghost use Rattle.cad_request.specs.ParsedRequests.{IsFeatureRequest, IsIdentified};

use crate::feature_request::FeatureRequest;
use crate::plain::{has_pairs, unknown};
use crate::request::ParsedRequest;
use crate::response::refusal;
use cad_head::Status;
use cad_parameters::read_identifier;
use cad_schema::Collection;
use std::alloc::{AllocError, Global};

/// The feature that the text identifies, unless the query has a parameter.
pub(crate) fn feature_request_at(
    alloc: Global,
    collection: Collection,
    text: &str,
    query: &str,
) -> Result<ParsedRequest, AllocError>
    ensures { IfOk result (IsFeatureRequest collection (pairs_of query.now) text.now) }
{
    if has_pairs(alloc, query)? {
        return Ok(ParsedRequest::Immediate(unknown(alloc)?));
    }
    identified(alloc, collection, text)
}

fn identified(
    alloc: Global,
    collection: Collection,
    text: &str,
) -> Result<ParsedRequest, AllocError>
    ensures { IfOk result (IsIdentified collection text.now) }
{
    match read_identifier(text) {
        Some(identifier) => Ok(ParsedRequest::Features(FeatureRequest::Feature {
            collection,
            identifier,
        })),
        None => Ok(ParsedRequest::Immediate(refusal(alloc, Status::NotFound, "no-feature")?)),
    }
}
