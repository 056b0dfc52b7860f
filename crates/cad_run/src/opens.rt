//! What opens a source of features.

ghost use Rattle.std.specs.Prelude.{◌≡◌, ◌<◌, ◌^◌, List, length, IfOk};
ghost use Rattle.std.specs.List.Sorted.{IsStrictlySortedBy};
ghost use Rattle.cad_feature.specs.Features.{by_identifier, Item};

use crate::counted_source::CountedSource;
use std::alloc::AllocError;

/// Features that stay what they are, like a plan's candidates in a snapshot, and of which a source is opened for each piece.
pub trait Opens<'a> {
    /// The source of a piece.
    type Source: CountedSource<'a>;

    /// All of them.
    ghost features: { Self → List Item };

    /// A source of all of them. An error means out of memory.
    fn open(&self) -> Result<Self::Source, AllocError>
        ensures all { IfOk result (λ source. Self.Source.left source ≡ features self.now) }
        ensures ascending { IsStrictlySortedBy by_identifier (features self.now) }
        ensures few { length (features self.now) < 2 ^ 64 };
}
