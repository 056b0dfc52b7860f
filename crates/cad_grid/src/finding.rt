//! The positions that a walk finds.

ghost use Rattle.std.specs.Prelude.{◌≡◌, ◌+◌, ◌&&◌, IfOk, None, filter, get_or, length};
ghost use Rattle.cad_grid.specs.Entries.{Ascends, found_in, is_first_at};
ghost use Rattle.cad_grid.specs.Squares.{AreEntriesMarked};

use crate::entry::Entry;
use crate::squares::SQUARE_WORDS;
use crate::walking::{first_inside, next_inside};
use crate::{Cells, PositionTest};
use cad_marks::Marks;
use std::alloc::{AllocError, Global};

// Whether the entry is in the first cell, by rows, that its shape's cells and the asked ones share.
fn is_first(cells: &[Option<Cells>], entry: Entry, asked: Cells) -> bool
    ensures { result ≡ is_first_at asked (get_or cells.now entry.position None) entry.row entry.column }
{
    if entry.position as usize >= cells.len() {
        return false;
    }
    match cells[entry.position as usize] {
        None => false,
        Some(own) => {
            entry.row == own.low.max(asked.low) && entry.column == own.left.max(asked.left)
        }
    }
}

// Whether the entry is in that cell, and its position passes.
fn is_first_and_passes<T: PositionTest>(
    cells: &[Option<Cells>],
    entry: Entry,
    asked: Cells,
    test: &T,
) -> bool
    ensures { result ≡ (is_first_at asked (get_or cells.now entry.position None) entry.row entry.column && T.passes test.now entry.position) }
{
    is_first(cells, entry, asked) && test.test(entry.position)
}

// How many of the positions pass.
fn count_listed<T: PositionTest>(positions: &[u32], test: &T) -> u64
    ensures { result ≡ length (filter (T.passes test.now) positions.now) }
{
    positions
        .iter()
        .filter(|position| test.test(**position))
        .count() as u64
}

/// How many of the positions that are found pass: those of the wide list, and one for each other shape in the asked cells.
pub(crate) fn count_found<T: PositionTest>(
    cells: &[Option<Cells>],
    wide: &[u32],
    marks: &Marks<SQUARE_WORDS>,
    entries: &[Entry],
    asked: Cells,
    test: &T,
) -> u64
    requires marked { AreEntriesMarked marks.now entries.now }
    requires ascends { Ascends entries.now }
    ensures { result ≡ length (filter (T.passes test.now) (found_in asked cells.now wide.now entries.now)) }
{
    let mut found = count_listed(wide, test);
    let mut at = first_inside(marks, entries, asked);
    while at < entries.len() {
        if is_first_and_passes(cells, entries[at], asked, test) {
            found += 1;
        }
        at = next_inside(entries, at + 1, asked);
    }
    found
}

/// The positions that are found, in the order of the walk.
pub(crate) fn list_found(
    alloc: Global,
    cells: &[Option<Cells>],
    wide: &[u32],
    marks: &Marks<SQUARE_WORDS>,
    entries: &[Entry],
    asked: Cells,
) -> Result<Vec<u32>, AllocError>
    requires marked { AreEntriesMarked marks.now entries.now }
    requires ascends { Ascends entries.now }
    ensures { IfOk result (λ v. v.items ≡ found_in asked cells.now wide.now entries.now) }
{
    let mut found = Vec::from_slice(alloc, wide)?;
    let mut at = first_inside(marks, entries, asked);
    while at < entries.len() {
        let entry = entries[at];
        if is_first(cells, entry, asked) {
            found.push(entry.position)?;
        }
        at = next_inside(entries, at + 1, asked);
    }
    Ok(found)
}
