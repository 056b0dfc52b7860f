//! Pages of features.

ghost use Rattle.std.specs.Prelude.{IfOk};
ghost use Rattle.cad_ask.specs.declared.fault.AskFault.TheVariants as ask_fault;
ghost use Rattle.cad_parameters.specs.Pairs.{pairs_of};
ghost use Rattle.cad_head.specs.declared.status.Status.TheVariants.{BadRequest};
ghost use Rattle.cad_request.specs.ParsedRequests.{fault_text, IsResponse, IsPageRequest};

use crate::feature_request::FeatureRequest;
use crate::request::ParsedRequest;
use crate::response::Response;
use cad_ask::{Ask, AskFault, fault_body};
use cad_head::Status;
use cad_schema::Collection;
use std::alloc::{AllocError, Global};

/// The page that the query asks for, or the refusal of its first fault.
pub(crate) fn page_request(
    alloc: Global,
    collection: Collection,
    query: &str,
) -> Result<ParsedRequest, AllocError>
    ensures { IfOk result (IsPageRequest collection (pairs_of query.now)) }
{
    match Ask::read(alloc, collection, query) {
        Ok(ask) => Ok(ParsedRequest::Features(FeatureRequest::Page(ask))),
        Err(AskFault::Memory) => Err(AllocError),
        Err(fault) => Ok(ParsedRequest::Immediate(fault_response(alloc, &fault)?)),
    }
}

/// The refusal of a query for its fault.
fn fault_response(alloc: Global, fault: &AskFault) -> Result<Response, AllocError>
    ensures { IfOk result (IsResponse BadRequest (fault_text fault.now)) }
{
    let body = fault_body(alloc, fault)?;
    Ok(Response {
        status: Status::BadRequest,
        body,
    })
}
