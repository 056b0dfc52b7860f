//! The replies to the requests that bytes begin with.

ghost use Rattle.std.specs.Prelude.{◌≡◌, ◌≤◌, drop, length};
ghost use Rattle.cad_stream.specs.Feeding.{IsNext, RepliesTo};

use crate::answer::Answer;
use crate::joining::joined;
use crate::next::{Next, Replies};
use crate::responder::Responder;
use cad_head::{FIELD_ROOM, HeadState, front_bytes, front_of};
use cad_versions::RegisterFault;
use httparse::spans::EMPTY_HEADER_SPAN;
use std::alloc::Global;

/// The answer to the request that the bytes begin with.
fn answer_next<R: Responder>(bytes: &[u8], responder: &mut R) -> Result<Next<Answer>, RegisterFault>
    ensures { IsNext R.Responder bytes.now responder.old result responder.new }
{
    let mut headers = [EMPTY_HEADER_SPAN; FIELD_ROOM];
    match front_of(bytes, &mut headers) {
        HeadState::Incomplete => Ok(Next::Waiting),
        HeadState::Invalid => {
            let reply = responder.bad_head()?;
            Ok(Next::Hopeless(reply))
        }
        HeadState::Complete(spans) => {
            let answer = responder.answer(front_bytes(bytes), &headers, &spans)?;
            Ok(Next::Answered {
                answer,
                used: spans.len,
            })
        }
    }
}

pub(crate) fn rest_from(bytes: &[u8], count: usize) -> &[u8]
    requires { count ≤ length bytes.now }
    ensures { result.now ≡ drop count bytes.now }
{
    &bytes[count..]
}

/// The replies to the requests that the bytes begin with, up to one that ends the connection.
pub(crate) fn reply_to_requests<R: Responder>(
    alloc: Global,
    bytes: &[u8],
    responder: &mut R,
) -> Result<Replies<Vec<u8>>, RegisterFault>
    ensures { RepliesTo R.Responder bytes.now responder.old result responder.new }
{
    let mut replies = Vec::new(alloc);
    let mut used = 0;
    loop {
        match answer_next(rest_from(bytes, used), responder)? {
            Next::Waiting => {
                return Ok(Replies {
                    out: replies,
                    used: Some(used),
                });
            }
            Next::Hopeless(reply) => {
                return Ok(Replies {
                    out: joined(replies, reply)?,
                    used: None,
                });
            }
            Next::Answered { answer, used: len } => {
                let Answer { bytes: reply, ends } = answer;
                replies = joined(replies, reply)?;
                if ends {
                    return Ok(Replies {
                        out: replies,
                        used: None,
                    });
                }
                used += len;
            }
        }
    }
}
