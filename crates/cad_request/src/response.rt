//! Responses that are made without the register.

ghost use Rattle.std.specs.Prelude.{IfOk};
ghost use Rattle.cad_request.specs.ParsedRequests.{IsRefusal};

use cad_head::Status;
use cad_json::word_body;
use std::alloc::{AllocError, Global};

/// The status and the JSON body of a reply.
#[derive(Debug, Drop)]
pub struct Response {
    /// The status of the reply's first line.
    pub status: Status,
    /// The text of the JSON body.
    pub body: String,
}

/// A refusal by its word.
pub(crate) fn refusal(alloc: Global, status: Status, word: &str) -> Result<Response, AllocError>
    ensures { IfOk result (IsRefusal status word.now) }
{
    let body = word_body(alloc, word)?;
    Ok(Response { status, body })
}
