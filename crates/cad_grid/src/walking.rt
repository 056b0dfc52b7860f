//! A walk through the entries of some cells.

ghost use Rattle.std.specs.Prelude.{◌≡◌, ◌↔◌, ℕ, ◌≤◌, ◌<◌, true, false, length, IsTrue};
ghost use Rattle.cad_grid.specs.Entries.{Ascends, IsBefore, entry_at, inside};
ghost use Rattle.cad_grid.specs.Squares.{AreEntriesMarked};

use crate::Cells;
use crate::entry::Entry;
use crate::squares::{SQUARE_WORDS, has_marked_square};
use cad_marks::Marks;

fn is_before(entry: Entry, row: u32, column: u32) -> bool
    ensures { IsTrue result ↔ IsBefore row column entry }
{
    entry.row < row || (entry.row == row && entry.column < column)
}

// The first entry at this cell or after it, among those from a place on, by a search in their order.
fn first_at(entries: &[Entry], from: usize, row: u32, column: u32) -> usize
    requires within { from ≤ length entries.now }
    requires ascends { Ascends entries.now }
    ensures after { from ≤ result }
    ensures within { result ≤ length entries.now }
    ensures before { (k : ℕ) → from ≤ k → k < result → IsBefore row column (entry_at entries.now k) }
{
    let mut low = from;
    let mut high = entries.len();
    while low < high {
        let middle = low + (high - low) / 2;
        if is_before(entries[middle], row, column) {
            low = middle + 1;
        } else {
            high = middle;
        }
    }
    low
}

// The place itself if its entry lies in the asked cells, else a later one: no entry between them lies there.
fn jump(entries: &[Entry], at: usize, asked: Cells) -> usize
    requires within { at < length entries.now }
    requires ascends { Ascends entries.now }
    ensures after { at ≤ result }
    ensures within { result ≤ length entries.now }
    ensures stays { result ≡ at → inside asked (entry_at entries.now at) ≡ true }
    ensures passed { (k : ℕ) → at ≤ k → k < result → inside asked (entry_at entries.now k) ≡ false }
{
    let entry = entries[at];
    if entry.row > asked.high {
        entries.len()
    } else if entry.row < asked.low {
        first_at(entries, at + 1, asked.low, asked.left)
    } else if entry.column < asked.left {
        first_at(entries, at + 1, entry.row, asked.left)
    } else if entry.column > asked.right {
        first_at(entries, at + 1, entry.row + 1, asked.left)
    } else {
        at
    }
}

/// The first place from one on whose entry lies in the asked cells, or the end. It looks at no more entries than lie there, apart from
/// a search in each row.
pub(crate) fn next_inside(entries: &[Entry], from: usize, asked: Cells) -> usize
    requires within { from ≤ length entries.now }
    requires ascends { Ascends entries.now }
    ensures after { from ≤ result }
    ensures within { result ≤ length entries.now }
    ensures inside { result < length entries.now → inside asked (entry_at entries.now result) ≡ true }
    ensures passed { (k : ℕ) → from ≤ k → k < result → inside asked (entry_at entries.now k) ≡ false }
{
    let mut at = from;
    while at < entries.len() {
        let next = jump(entries, at, asked);
        if next == at {
            return at;
        }
        at = next;
    }
    at
}

/// The first place whose entry lies in the asked cells, or the end. There is no search if no square with some of the cells has an entry.
pub(crate) fn first_inside(marks: &Marks<SQUARE_WORDS>, entries: &[Entry], asked: Cells) -> usize
    requires marked { AreEntriesMarked marks.now entries.now }
    requires ascends { Ascends entries.now }
    ensures within { result ≤ length entries.now }
    ensures inside { result < length entries.now → inside asked (entry_at entries.now result) ≡ true }
    ensures passed { (k : ℕ) → k < result → inside asked (entry_at entries.now k) ≡ false }
{
    if has_marked_square(marks, asked) {
        next_inside(entries, 0, asked)
    } else {
        entries.len()
    }
}
