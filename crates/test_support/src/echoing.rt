//! The work that the reply to a request takes.

ghost use Rattle.std.specs.Prelude.{◌≡◌, ◌≤◌, ◌<◌, ◌+◌, IfOk};
ghost use Rattle.cad_stream.specs.Beginning.{told, IfLeft};
ghost use Rattle.test_support.specs.Echoes.{owed, left_of};

use cad_io::number;
use cad_stream::Part;
use std::alloc::AllocError;

/// What a target begins with that names how many units of work its reply takes.
const UNITS: &[u8] = b"/units/";

/// The same, if there is no memory for the last of them.
const UNMADE: &[u8] = b"/unmade/";

/// A reply, and the work that is left until it counts as made.
#[derive(Debug, Drop)]
pub struct Echoing {
    reply: Vec<u8>,
    left: u32,
    is_unmade: bool,
}

/// The units of work that were done.
#[derive(Clone, Copy, Debug, Default)]
pub struct Units {
    /// How many they are.
    pub done: u64,
}

/// How many units of work the reply to a request for this target takes.
fn units_of(target: &[u8]) -> u32 {
    let Some(digits) = target.strip_prefix(UNITS).or(target.strip_prefix(UNMADE)) else {
        return 0;
    };
    let count = number(digits).unwrap_or(0);
    u32::try_from(count).unwrap_or(u32::MAX)
}

/// The reply to a request for this target, if it takes no work, or the work for it.
pub(crate) fn begun(reply: Vec<u8>, target: &[u8]) -> Part<Echoing>
    ensures { told owed result ≡ reply.items }
{
    let left = units_of(target);
    if left == 0 {
        return Part::Made(reply);
    }
    Part::Left(Echoing {
        reply,
        left,
        is_unmade: target.starts_with(UNMADE),
    })
}

impl Echoing {
    /// Does so many units of the work at most. An error means out of memory.
    pub(crate) fn go_on(self, budget: u32, units: &mut Units) -> Result<Part<Echoing>, AllocError>
        requires { 0 < budget }
        ensures owes { IfOk result (λ part. told owed part ≡ owed self) }
        ensures smaller { IfOk result (λ part. IfLeft part (λ next. left_of next < left_of self)) }
        ensures bounded { units.new.done ≤ units.old.done + budget }
    {
        let Echoing {
            reply,
            left,
            is_unmade,
        } = self;
        let done = left.min(budget);
        units.done = units.done.saturating_add(u64::from(done));
        if done < left {
            return Ok(Part::Left(Echoing {
                reply,
                left: left - done,
                is_unmade,
            }));
        }
        if is_unmade {
            return Err(AllocError);
        }
        Ok(Part::Made(reply))
    }
}
