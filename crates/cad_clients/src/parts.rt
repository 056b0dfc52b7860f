//! The replies that are owed.

ghost use Rattle.std.specs.Prelude.{◌≡◌, ◌≤◌, ◌<◌, ◌+◌, IfOk};
ghost use Rattle.cad_stream.specs.Beginning.{told, IfLeft, pieces_left};
ghost use Rattle.cad_clients.specs.Channels.{is_first_made as is_first_made_of};

use cad_stream::{Part, WorkingResponder};
use std::alloc::{AllocError, Global};

/// A piece of work for a reply, if it is not made. It tells what it told. An error means out of memory.
pub(crate) fn go_on_with<R: WorkingResponder>(
    alloc: Global,
    part: Part<R::Work>,
    budget: u32,
    meter: &mut R::Meter,
) -> Result<Part<R::Work>, AllocError>
    requires some { 0 < budget }
    ensures told { IfOk result (λ next. told R.owes next ≡ told R.owes part) }
    ensures smaller { IfOk result (λ next. IfLeft next (λ work. pieces_left R.remaining next < pieces_left R.remaining part)) }
    ensures bounded { R.spent meter.new ≤ R.spent meter.old + budget }
{
    match part {
        Part::Made(bytes) => Ok(Part::Made(bytes)),
        Part::Left(work) => R::go_on(alloc, work, budget, meter),
    }
}

/// Whether the first of these replies is made.
pub(crate) fn is_first_made<W>(parts: &[Part<W>]) -> bool
    ensures { result ≡ is_first_made_of parts.now }
{
    matches!(parts.first(), Some(Part::Made(_)))
}
