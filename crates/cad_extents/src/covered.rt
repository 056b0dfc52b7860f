//! The cells that small shapes touch.

ghost use Rattle.std.specs.Prelude.{◌≡◌, IfOk, Some, true, false};
ghost use Rattle.cad_grid.specs.Blocks.{Block, is_wide};
ghost use Rattle.cad_grid.specs.Counted.{block_at};
ghost use Rattle.cad_grid.specs.Near.{is_candidate};
ghost use Rattle.cad_extents.specs.Extents.{IsCovered, is_inside};

use cad_grid::{Cells, SQUARE_WORDS, has_marked_square, mark_squares};
use cad_marks::Marks;
use std::alloc::{AllocError, Global};

/// A block of cells around shapes of at most 64 cells, and the squares that they touch.
#[derive(Debug, Drop)]
pub(crate) struct Covered {
    block: Cells,
    marks: Marks<SQUARE_WORDS>,
}

/// The least block of cells that contains both.
fn around(one: Cells, other: Cells) -> Cells
    ensures one { is_inside (block_at one) (block_at result) ≡ true }
    ensures other { is_inside (block_at other) (block_at result) ≡ true }
{
    Cells {
        left: one.left.min(other.left),
        low: one.low.min(other.low),
        right: one.right.max(other.right),
        high: one.high.max(other.high),
    }
}

impl Covered {
    /// What a shape with these cells touches. An error means out of memory.
    pub(crate) fn of(alloc: Global, cells: Cells) -> Result<Covered, AllocError>
        requires { is_wide (block_at cells) ≡ false }
        ensures { IfOk result (λ covered. IsCovered covered (block_at cells)) }
    {
        let mut marks = Marks::none(alloc)?;
        mark_squares(&mut marks, cells);
        Ok(Covered {
            block: cells,
            marks,
        })
    }

    /// Takes in a shape with these cells.
    pub(crate) fn widen(&mut self, cells: Cells)
        requires { is_wide (block_at cells) ≡ false }
        ensures own { (b : Block) → IsCovered self.old b → IsCovered self.new b }
        ensures more { IsCovered self.new (block_at cells) }
    {
        self.block = around(self.block, cells);
        mark_squares(&mut self.marks, cells);
    }

    /// The same in memory of its own. An error means out of memory.
    pub(crate) fn copy(&self, alloc: Global) -> Result<Covered, AllocError>
        ensures { IfOk result (λ covered. (b : Block) → IsCovered self.now b → IsCovered covered b) }
    {
        let marks = self.marks.copy(alloc)?;
        Ok(Covered {
            block: self.block,
            marks,
        })
    }

    /// Whether such a shape may share a cell with the given ones.
    pub(crate) fn may_share(&self, asked: Cells) -> bool
        ensures { result ≡ false → (own : Block) → IsCovered self.now own → is_candidate (block_at asked) (Some own) ≡ false }
    {
        self.block.share_a_cell(asked) && has_marked_square(&self.marks, asked)
    }
}
