//! One step through the candidates of segments.

use crate::segment_end::end_after;
use crate::segments_left::{SegmentsLeft, open, take_first};
use crate::stepped_source::Step;
use cad_layer::Segment;
use cad_versions::ObjectId;
use std::alloc::AllocError;

/// A segment with features that come after a named one.
#[derive(Clone, Copy)]
struct Next<'a> {
    segment: &'a Segment,
    /// The segments behind it.
    behind: &'a [Segment],
    /// The identifier of its last feature.
    last: (ObjectId, u32),
}

impl<'a, 'p> SegmentsLeft<'a, 'p> {
    ghost use Rattle.std.specs.Prelude.{◌≡◌, [], IfOk, IfErr, MatchOption};
    ghost use Rattle.std.specs.List.Sorted.{IsStrictlySortedBy};
    ghost use Rattle.cad_feature.specs.Features.{by_identifier};
    ghost use Rattle.cad_layer.specs.Segments.{AreSegments};
    ghost use Rattle.cad_run.specs.SegmentLeft.{opened_left, segments_ahead, segments_left};
    ghost use Rattle.cad_run.specs.Steps.{GoesOn, IsStep};
    ghost use Rattle.cad_run.specs.inner.Nexts.{IsNext};

    /// The next segment with features that come after the named one. Segments before it, which have none, are dropped.
    fn next_segment(&mut self) -> Option<Next<'a>>
        requires { AreSegments self.old.unopened.now }
        ensures apart { AreSegments self.new.unopened.now }
        ensures left { segments_left self.new ≡ segments_left self.old }
        ensures ahead { segments_ahead self.new ≡ segments_ahead self.old }
        ensures opened { self.new.opened ≡ self.old.opened }
        ensures next { MatchOption result (self.new.unopened.now ≡ []) (λ next. IsNext next self.new) }
    {
        while let Some((segment, behind)) = self.unopened.split_first() {
            if let Some(last) = end_after(segment, self.after) {
                return Some(Next {
                    segment,
                    behind,
                    last,
                });
            }
            self.unopened = behind;
        }
        None
    }

    /// Asks the indexes of the next segment, and takes its first candidate. A segment without one is passed.
    fn open_one(&mut self) -> Result<Step<'a>, AllocError>
        requires closed { opened_left self.old.opened ≡ [] }
        requires apart { AreSegments self.old.unopened.now }
        requires ascending { IsStrictlySortedBy by_identifier (segments_ahead self.old) }
        ensures apart { AreSegments self.new.unopened.now }
        ensures ascending { IsStrictlySortedBy by_identifier (segments_ahead self.new) }
        ensures step { IfOk result (λ step. IsStep (segments_left self.old) step (segments_left self.new)) }
        ensures onward { IfOk result (λ step. GoesOn (segments_ahead self.old) step (segments_ahead self.new)) }
        ensures left { IfErr result (λ error. segments_left self.new ≡ segments_left self.old) }
    {
        let Some(next) = self.next_segment() else {
            return Ok(Step::Over);
        };
        self.opened = open(self.alloc, self.sought, self.after, next.segment)?;
        self.unopened = next.behind;
        match take_first(&mut self.opened) {
            Some(first) => Ok(Step::Found(first)),
            None => Ok(Step::Passed(next.last)),
        }
    }

    /// One step: takes the first candidate of the segment whose indexes were asked, or asks those of the next one. An error means out of
    /// memory, and all is left as it was.
    pub(crate) fn step(&mut self) -> Result<Step<'a>, AllocError>
        requires apart { AreSegments self.old.unopened.now }
        requires ascending { IsStrictlySortedBy by_identifier (segments_ahead self.old) }
        ensures apart { AreSegments self.new.unopened.now }
        ensures ascending { IsStrictlySortedBy by_identifier (segments_ahead self.new) }
        ensures step { IfOk result (λ step. IsStep (segments_left self.old) step (segments_left self.new)) }
        ensures onward { IfOk result (λ step. GoesOn (segments_ahead self.old) step (segments_ahead self.new)) }
        ensures left { IfErr result (λ error. segments_left self.new ≡ segments_left self.old) }
    {
        match take_first(&mut self.opened) {
            Some(feature) => Ok(Step::Found(feature)),
            None => self.open_one(),
        }
    }
}
