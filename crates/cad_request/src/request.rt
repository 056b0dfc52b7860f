//! What a request wants.

ghost use Rattle.std.specs.Prelude.{IfOk};
ghost use Rattle.cad_parameters.specs.Pairs.{pairs_of};
ghost use Rattle.cad_resource.specs.Requested.{place_held};
ghost use Rattle.cad_request.specs.ParsedRequests.{IsRequestAt};

use crate::feature::feature_request_at;
use crate::feature_request::FeatureRequest;
use crate::page::page_request;
use crate::plain::plain;
use crate::response::{Response, refusal};
use cad_json::{collection_body, collections_body, landing_body, queryables_body};
use cad_resource::{Check, Resource, ResourceQuery};
use std::alloc::{AllocError, Global};

/// What a request wants of the register.
#[derive(Drop)]
pub enum ParsedRequest {
    /// Nothing: this is the response.
    Immediate(Response),
    /// Features of a revision.
    Features(FeatureRequest),
}

impl ParsedRequest {
    ghost use Rattle.std.specs.Prelude.{IfOk};
    ghost use Rattle.cad_resource.specs.Requested.{requested_text};
    ghost use Rattle.cad_request.specs.ParsedRequests.{IsParsedRequest};

    /// What a request wants if it asks for this, or fails this check. An error means out of memory.
    pub fn of(
        alloc: Global,
        requested: &Result<ResourceQuery<'_>, Check>,
    ) -> Result<ParsedRequest, AllocError>
        ensures { IfOk result (IsParsedRequest (requested_text requested.now)) }
    {
        match requested {
            Ok(requested) => request_at_resource(alloc, requested.resource, requested.query),
            Err(check) => Ok(ParsedRequest::Immediate(refusal(
                alloc,
                check.status(),
                check.word(),
            )?)),
        }
    }
}

fn request_at_resource(
    alloc: Global,
    resource: Resource<'_>,
    query: &str,
) -> Result<ParsedRequest, AllocError>
    ensures { IfOk result (IsRequestAt (place_held resource.entry) (pairs_of query.now)) }
{
    match resource {
        Resource::Landing => Ok(ParsedRequest::Immediate(plain(
            alloc,
            query,
            landing_body(alloc)?,
        )?)),
        Resource::Collections => Ok(ParsedRequest::Immediate(plain(
            alloc,
            query,
            collections_body(alloc)?,
        )?)),
        Resource::Collection(collection) => {
            let body = collection_body(alloc, collection)?;
            Ok(ParsedRequest::Immediate(plain(alloc, query, body)?))
        }
        Resource::Queryables(collection) => {
            let body = queryables_body(alloc, collection)?;
            Ok(ParsedRequest::Immediate(plain(alloc, query, body)?))
        }
        Resource::Items(collection) => page_request(alloc, collection, query),
        Resource::Item {
            collection,
            identifier,
        } => feature_request_at(alloc, collection, identifier, query),
    }
}
