//! Candidates by steps.

use crate::candidates::{CandidatesAt, Sources};
use cad_run::{Step, SteppedSource};
use cad_versions::ObjectId;
use std::alloc::AllocError;

impl<'a> SteppedSource<'a> for CandidatesAt<'a, '_> {
    ghost use Rattle.cad_answer.specs.inner.Left.{all_ahead, all_left};

    ghost left = { all_left };

    ghost ahead = { all_ahead };

    fn step(&mut self) -> Result<Step<'a>, AllocError> {
        match &mut self.sources {
            Sources::Newest(left) => left.step(),
            Sources::Past(left) => left.step(),
        }
    }

    fn seek(&mut self, last: (ObjectId, u32)) {
        match &mut self.sources {
            Sources::Newest(left) => left.seek(last),
            Sources::Past(left) => left.seek(last),
        }
    }
}
