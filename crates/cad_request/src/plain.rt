//! Resources that take no parameters.

ghost use Rattle.std.specs.Prelude.{◌≡◌, codes, IfOk, string_bytes};
ghost use Rattle.cad_parameters.specs.Pairs.{pairs_of};
ghost use Rattle.cad_head.specs.declared.status.Status.TheVariants.{BadRequest};
ghost use Rattle.cad_request.specs.ParsedRequests.{has_pairs as has_pairs_of, IsPlain, IsRefusal};

use crate::response::{Response, refusal};
use cad_head::Status;
use cad_parameters::read_pairs;
use std::alloc::{AllocError, Global};

/// Whether the query has a parameter.
pub(crate) fn has_pairs(alloc: Global, query: &str) -> Result<bool, AllocError>
    ensures { IfOk result (λ has. has ≡ has_pairs_of (pairs_of query.now)) }
{
    let pairs = read_pairs(alloc, query.as_bytes())?;
    let has = !pairs.is_empty();
    Ok(has)
}

/// The refusal of a parameter if none is taken.
pub(crate) fn unknown(alloc: Global) -> Result<Response, AllocError>
    ensures { IfOk result (IsRefusal BadRequest (codes "unknown")) }
{
    refusal(alloc, Status::BadRequest, "unknown")
}

/// The body, unless the query has a parameter.
pub(crate) fn plain(alloc: Global, query: &str, body: String) -> Result<Response, AllocError>
    ensures { IfOk result (IsPlain (pairs_of query.now) (string_bytes body)) }
{
    if has_pairs(alloc, query)? {
        return unknown(alloc);
    }
    Ok(Response {
        status: Status::Ok,
        body,
    })
}
