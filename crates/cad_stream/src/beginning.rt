//! The requests that bytes begin with, begun.

ghost use Rattle.cad_stream.specs.Begins.{BeginsNext, BeginsAll};

use crate::next::{Next, Replies};
use crate::replies::rest_from;
use crate::working_responder::{Begun, Part, WorkingResponder};
use cad_head::{FIELD_ROOM, HeadState, front_bytes, front_of};
use cad_versions::RegisterFault;
use httparse::spans::EMPTY_HEADER_SPAN;
use std::alloc::Global;

/// Begins the request that the bytes begin with.
fn begin_next<R: WorkingResponder>(
    bytes: &[u8],
    responder: &mut R,
) -> Result<Next<Begun<R::Work>>, RegisterFault>
    ensures { BeginsNext R.Responder R.owes bytes.now responder.old result responder.new }
{
    let mut headers = [EMPTY_HEADER_SPAN; FIELD_ROOM];
    match front_of(bytes, &mut headers) {
        HeadState::Incomplete => Ok(Next::Waiting),
        HeadState::Invalid => {
            let reply = responder.bad_head()?;
            Ok(Next::Hopeless(reply))
        }
        HeadState::Complete(spans) => {
            let answer = responder.begin(front_bytes(bytes), &headers, &spans)?;
            Ok(Next::Answered {
                answer,
                used: spans.len,
            })
        }
    }
}

/// Begins the requests that the bytes begin with, up to one that ends the connection.
pub(crate) fn begin_requests<R: WorkingResponder>(
    alloc: Global,
    bytes: &[u8],
    responder: &mut R,
) -> Result<Replies<Vec<Part<R::Work>>>, RegisterFault>
    ensures { BeginsAll R.Responder R.owes bytes.now responder.old result responder.new }
{
    let mut parts = Vec::new(alloc);
    let mut used = 0;
    loop {
        match begin_next(rest_from(bytes, used), responder)? {
            Next::Waiting => {
                return Ok(Replies {
                    out: parts,
                    used: Some(used),
                });
            }
            Next::Hopeless(reply) => {
                parts.push(Part::Made(reply))?;
                return Ok(Replies {
                    out: parts,
                    used: None,
                });
            }
            Next::Answered { answer, used: len } => {
                let Begun { part, ends } = answer;
                parts.push(part)?;
                if ends {
                    return Ok(Replies {
                        out: parts,
                        used: None,
                    });
                }
                used += len;
            }
        }
    }
}
