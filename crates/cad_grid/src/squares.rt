//! Squares of cells, and which of them are marked.

ghost use Rattle.std.specs.Prelude.{◌≡◌, ℕ, ◌<◌, ◌≤◌, IfOk, false};
ghost use Rattle.cad_grid.specs.Squares.{AreEntriesMarked, AreFree, AreMarked, IsRowFree, IsRowMarked, place_at};
ghost use Rattle.cad_marks.specs.Marked.{IsMarked};

use crate::Cells;
use crate::entry::Entry;
use cad_marks::Marks;
use std::alloc::{AllocError, Global};

/// The words of marks for the places of all squares: 4,096 places, 512 bytes.
pub const SQUARE_WORDS: usize = 64;

/// A square has this many columns and this many rows of cells.
const CELLS: u32 = 8;

/// There are this many rows of places, and this many places in a row.
const SIDE: u32 = 64;

/// The place of the square in this row and column of squares.
fn place(row: u32, column: u32) -> u32
    ensures place { result ≡ place_at row column }
    ensures within { result < 4096 }
{
    (row % 64) * 64 + column % 64
}

/// Marks the squares of this row in the columns from first to last.
fn mark_row(marks: &mut Marks<SQUARE_WORDS>, row: u32, first: u32, last: u32)
    requires { last ≤ 400000 }
    ensures own { (k : ℕ) → IsMarked marks.old k → IsMarked marks.new k }
    ensures more { IsRowMarked marks.new row first last }
{
    for column in first..last + 1 {
        marks.set(place(row, column));
    }
}

/// Whether a square of this row in the columns from first to last is marked.
fn has_in_row(marks: &Marks<SQUARE_WORDS>, row: u32, first: u32, last: u32) -> bool
    requires { last ≤ 400000 }
    ensures { result ≡ false → IsRowFree marks.now row first last }
{
    for column in first..last + 1 {
        if marks.has(place(row, column)) {
            return true;
        }
    }
    false
}

/// Marks the squares that have some of the cells.
pub fn mark_squares(marks: &mut Marks<SQUARE_WORDS>, cells: Cells)
    ensures own { (k : ℕ) → IsMarked marks.old k → IsMarked marks.new k }
    ensures more { AreMarked marks.new cells }
{
    for row in cells.low / CELLS..cells.high / CELLS + 1 {
        mark_row(marks, row, cells.left / CELLS, cells.right / CELLS);
    }
}

/// Whether the cells lie in so many squares that nearly each place is that of one of them.
fn are_many(cells: Cells) -> bool {
    (cells.right - cells.left) / CELLS >= SIDE || (cells.high - cells.low) / CELLS >= SIDE
}

/// Whether a square that has some of the cells is marked. If there are very many squares, it returns true without a search.
pub fn has_marked_square(marks: &Marks<SQUARE_WORDS>, cells: Cells) -> bool
    ensures { result ≡ false → AreFree marks.now cells }
{
    if are_many(cells) {
        return true;
    }
    for row in cells.low / CELLS..cells.high / CELLS + 1 {
        if has_in_row(marks, row, cells.left / CELLS, cells.right / CELLS) {
            return true;
        }
    }
    false
}

/// The marks of the squares that have entries. An error means out of memory.
pub(crate) fn marks_of(alloc: Global, entries: &[Entry]) -> Result<Marks<SQUARE_WORDS>, AllocError>
    ensures { IfOk result (λ marks. AreEntriesMarked marks entries.now) }
{
    let mut marks = Marks::none(alloc)?;
    for entry in entries {
        marks.set(place(entry.row / CELLS, entry.column / CELLS));
    }
    Ok(marks)
}
