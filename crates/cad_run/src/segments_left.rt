//! The candidates of segments, one segment after the other.

ghost use Rattle.std.specs.Prelude.{◌≡◌, [], ◌∷◌, filter, option_map, IfOk, MatchOption, Some};
ghost use Rattle.cad_run.specs.SegmentLeft.{opened_left};
ghost use Rattle.cad_run.specs.Slices.{identifier, later};
ghost use Rattle.cad_run.specs.Sought.{is_sought};

use crate::later_one::later_of;
use crate::presence::may_have;
use crate::segment_candidates::SegmentCandidates;
use crate::sought::Sought;
use cad_feature::Feature;
use cad_layer::{Segment, segments_from};
use cad_versions::ObjectId;
use std::alloc::{AllocError, Global};

/// What is left of the candidates of segments. The indexes of a segment are asked when its first candidate is taken.
#[derive(Drop)]
pub(crate) struct SegmentsLeft<'a, 'p> {
    pub(crate) alloc: Global,
    pub(crate) sought: Sought<'p>,
    /// The candidates of the segment whose indexes were asked last.
    pub(crate) opened: Option<SegmentCandidates<'a, 'p>>,
    /// The segments behind it.
    pub(crate) unopened: &'a [Segment],
    /// In these, only what comes after the named feature is left.
    pub(crate) after: Option<(ObjectId, u32)>,
}

/// Asks the segment's indexes, unless its extents show that it has no candidate. Only what comes after the named feature is left.
pub(crate) fn open<'a, 'p>(
    alloc: Global,
    sought: Sought<'p>,
    after: Option<(ObjectId, u32)>,
    segment: &'a Segment,
) -> Result<Option<SegmentCandidates<'a, 'p>>, AllocError>
    ensures { IfOk result (λ opened. opened_left opened ≡ later (option_map identifier after) (filter (is_sought sought.entry) segment.now.features)) }
{
    if !may_have(sought.plan, segment.extents()) {
        return Ok(None);
    }
    let mut opened = SegmentCandidates::of(alloc, sought, segment)?;
    if let Some(last) = after {
        opened.seek(last);
    }
    Ok(Some(opened))
}

/// Takes the first candidate of the segment. If it has none, it is closed.
pub(crate) fn take_first<'a>(opened: &mut Option<SegmentCandidates<'a, '_>>) -> Option<&'a Feature>
    ensures { MatchOption result ((opened_left opened.old ≡ []) × (opened_left opened.new ≡ [])) (λ x. opened_left opened.old ≡ x.now ∷ opened_left opened.new) }
{
    let first = opened.as_mut()?.next();
    if first.is_none() {
        *opened = None;
    }
    first
}

/// Drops the candidates of the segment up to the named one.
fn seek_in(opened: &mut Option<SegmentCandidates<'_, '_>>, last: (ObjectId, u32))
    ensures { opened_left opened.new ≡ later (Some (identifier last)) (opened_left opened.old) }
{
    if let Some(opened) = opened {
        opened.seek(last);
    }
}

impl<'a, 'p> SegmentsLeft<'a, 'p> {
    ghost use Rattle.std.specs.Prelude.{◌≡◌, ◌<◌, [], ◌∷◌, filter, length, IfOk, IfErr, MatchOption, Some, true, false};
    ghost use Rattle.std.specs.List.Sorted.{IsStrictlySortedBy};
    ghost use Rattle.cad_feature.specs.Features.{by_identifier};
    ghost use Rattle.cad_layer.specs.Segments.{AreSegments, joined};
    ghost use Rattle.cad_run.specs.SegmentLeft.{opened_left, segments_ahead, segments_left};
    ghost use Rattle.cad_run.specs.Slices.{identifier, later};
    ghost use Rattle.cad_run.specs.Sought.{is_sought};

    /// What is sought in the segments.
    pub(crate) fn new(alloc: Global, sought: Sought<'p>, segments: &'a [Segment]) -> Self
        ensures left { segments_left result ≡ filter (is_sought sought.entry) (joined segments.now) }
        ensures ahead { segments_ahead result ≡ joined segments.now }
        ensures unopened { result.unopened.now ≡ segments.now }
    {
        SegmentsLeft {
            alloc,
            sought,
            opened: None,
            unopened: segments,
            after: None,
        }
    }

    /// Opens the next segment, or returns false if there is none. An error means out of memory, and all is left as it was. Few calls of
    /// `next` come here, so its large local variables are no part of `next`.
    #[inline(never)]
    fn open_next(&mut self) -> Result<bool, AllocError>
        requires closed { opened_left self.old.opened ≡ [] }
        requires apart { AreSegments self.old.unopened.now }
        ensures apart { AreSegments self.new.unopened.now }
        ensures left { segments_left self.new ≡ segments_left self.old }
        ensures ascending { IsStrictlySortedBy by_identifier (segments_ahead self.old) → IsStrictlySortedBy by_identifier (segments_ahead self.new) }
        ensures last { IfOk result (λ is_open. is_open ≡ false → (opened_left self.new.opened ≡ []) × (self.new.unopened.now ≡ [])) }
        ensures fewer { IfOk result (λ is_open. is_open ≡ true → length self.new.unopened.now < length self.old.unopened.now) }
    {
        let Some((segment, behind)) = self.unopened.split_first() else {
            return Ok(false);
        };
        self.opened = open(self.alloc, self.sought, self.after, segment)?;
        self.unopened = behind;
        Ok(true)
    }

    /// Takes the first candidate. An error means out of memory, and all is left as it was.
    pub(crate) fn next(&mut self) -> Result<Option<&'a Feature>, AllocError>
        requires apart { AreSegments self.old.unopened.now }
        requires ascending { IsStrictlySortedBy by_identifier (segments_ahead self.old) }
        ensures apart { AreSegments self.new.unopened.now }
        ensures ascending { IsStrictlySortedBy by_identifier (segments_ahead self.new) }
        ensures taken { IfOk result (λ first. MatchOption first ((segments_left self.old ≡ []) × (segments_left self.new ≡ [])) (λ x. segments_left self.old ≡ x.now ∷ segments_left self.new)) }
        ensures left { IfErr result (λ error. segments_left self.new ≡ segments_left self.old) }
    {
        loop {
            if let Some(feature) = take_first(&mut self.opened) {
                return Ok(Some(feature));
            }
            if !self.open_next()? {
                return Ok(None);
            }
        }
    }

    /// Drops the candidates up to the named one. The indexes of segments before it are not asked.
    pub(crate) fn seek(&mut self, last: (ObjectId, u32))
        requires { AreSegments self.old.unopened.now }
        ensures apart { AreSegments self.new.unopened.now }
        ensures left { segments_left self.new ≡ later (Some (identifier last)) (segments_left self.old) }
        ensures ahead { segments_ahead self.new ≡ later (Some (identifier last)) (segments_ahead self.old) }
    {
        seek_in(&mut self.opened, last);
        self.unopened = segments_from(self.unopened, last.0);
        self.after = Some(later_of(self.after, last));
    }
}
