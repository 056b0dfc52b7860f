//! The segment in which an object lies, and those behind it.

ghost use Rattle.std.specs.Prelude.{◌≡◌, ℕ, [], MatchOption};
ghost use Rattle.cad_layer.specs.Identifiers.{identifier, items_after, of_object};
ghost use Rattle.cad_layer.specs.Segments.{AreSegments, joined};

use crate::Segment;
use cad_versions::ObjectId;

/// The segment that has all versions of the object, if there are any segments.
pub(crate) fn segment_of(segments: &[Segment], object: ObjectId) -> Option<&Segment>
    requires { AreSegments segments.now }
    ensures { MatchOption result (of_object object (joined segments.now) ≡ []) (λ s. of_object object s.now.features ≡ of_object object (joined segments.now)) }
{
    let (mut found, mut rest) = segments.split_first()?;
    while let Some((next, behind)) = rest.split_first() {
        if object.number() < next.start() {
            return Some(found);
        }
        found = next;
        rest = behind;
    }
    Some(found)
}

/// The segments from the one on in which the object lies. Those before it have nothing that comes after a version of the object.
pub fn segments_from(segments: &[Segment], object: ObjectId) -> &[Segment]
    requires { AreSegments segments.now }
    ensures apart { AreSegments result.now }
    ensures after { (number : ℕ) → items_after (identifier object number) (joined result.now) ≡ items_after (identifier object number) (joined segments.now) }
{
    let mut rest = segments;
    while let Some((_segment, behind)) = rest.split_first() {
        let Some((next, _others)) = behind.split_first() else {
            return rest;
        };
        if object.number() < next.start() {
            return rest;
        }
        rest = behind;
    }
    rest
}
