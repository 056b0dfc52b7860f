//! A reply that is made at once.

ghost use Rattle.std.specs.Prelude.{◌≡◌, IfOk};
ghost use Rattle.cad_stream.specs.Beginning.{told};

use crate::working_responder::{Part, WorkingResponder};
use std::alloc::{AllocError, Global};

/// The most units of work of one piece.
const PIECE: u32 = 8192;

/// Goes on with a reply until it is made, for who waits for it and has nobody else to serve. An error means out of memory.
pub fn finish<R: WorkingResponder>(
    alloc: Global,
    begun: Part<R::Work>,
    meter: &mut R::Meter,
) -> Result<Vec<u8>, AllocError>
    ensures { IfOk result (λ bytes. bytes.items ≡ told R.owes begun) }
{
    let mut part = begun;
    loop {
        match part {
            Part::Made(bytes) => return Ok(bytes),
            Part::Left(work) => part = R::go_on(alloc, work, PIECE, meter)?,
        }
    }
}
