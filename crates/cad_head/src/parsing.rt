//! What is at the front of a connection's bytes.

ghost use Rattle.cad_head.specs.Front.{IsFrontOf, IsFrontWithin, IsFrontUnfinished};

use crate::limits::{FIELD_ROOM, FRONT_LEN, front_bytes};
use httparse::Status;
use httparse::spans::{HeaderSpan, RequestSpans, parse_request};

/// The state of the head at the front of a connection's bytes.
#[derive(Clone, Copy, Debug, PartialEq, Eq)]
pub enum HeadState {
    /// A whole head, by the places of its parts in `front_bytes`.
    Complete(RequestSpans),
    /// No whole head yet.
    Incomplete,
    /// No head, no matter which bytes follow.
    Invalid,
}

/// What is at the front of these bytes. The places of a head's fields are written to the
/// first `headers` entries.
pub fn front_of(bytes: &[u8], headers: &mut [HeaderSpan; FIELD_ROOM]) -> HeadState
    ensures front { IsFrontOf bytes.now headers.new result }
    ensures within { IsFrontWithin bytes.now headers.new result }
    ensures unfinished { IsFrontUnfinished bytes.now result }
{
    match parse_request(front_bytes(bytes), headers) {
        Ok(Status::Complete(spans)) => HeadState::Complete(spans),
        Ok(Status::Partial) => {
            if bytes.len() < FRONT_LEN {
                HeadState::Incomplete
            } else {
                HeadState::Invalid
            }
        }
        Err(_) => HeadState::Invalid,
    }
}
