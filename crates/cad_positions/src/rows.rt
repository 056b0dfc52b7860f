//! A tree of sources as a source of positions.

ghost use Rattle.std.specs.Prelude.{◌≡◌};
ghost use Rattle.cad_positions.specs.AllRows.{rows_bounded, rows_increase, rows_of};
ghost use Rattle.cad_positions.specs.Rest.{left_in};

use crate::row_source::RowSource;
use crate::settling::settle;
use crate::source::Source;

/// What a tree of sources has from a position on. Positions that a seek passes are not looked at.
#[derive(Debug, Drop)]
pub struct Rows<'a> {
    source: Source<'a>,
    from: u32,
}

impl<'a> Rows<'a> {
    ghost use Rattle.std.specs.Prelude.{◌≡◌, ℕ};
    ghost use Rattle.cad_positions.specs.Has.{has};
    ghost use Rattle.cad_positions.specs.Rest.{left_in};

    /// All that the tree has.
    pub fn of(source: Source<'a>) -> Rows<'a>
        ensures { (k : ℕ) → left_in result k ≡ has source.entry k }
    {
        Rows { source, from: 0 }
    }
}

impl RowSource for Rows<'_> {
    ghost left = { λ s. rows_of (left_in s) };

    ghost ascends = { λ s. rows_increase (left_in s) };

    ghost bounded = { λ s. rows_bounded (left_in s) };

    fn next(&mut self) -> Option<u32> {
        let Some(front) = settle(&mut self.source, self.from) else {
            return None;
        };
        if front < u32::MAX {
            self.from = front + 1;
        } else {
            self.source = Source::Empty;
        }
        Some(front)
    }

    fn seek(&mut self, from: u32) {
        if self.from < from {
            self.from = from;
        }
    }
}
