//! Shapes entered in their cells.

ghost use Rattle.std.specs.Prelude.{◌≡◌, ℕ, ◌+◌, ◌-◌, Bool, IfOk, option_map};
ghost use Rattle.cad_grid.specs.Counted.{block_at};
ghost use Rattle.cad_grid.specs.Near.{block_at_place};
ghost use Rattle.cad_positions.specs.Hits.{hits, once};
ghost use Rattle.cad_grid.specs.Entries.{entered, for_position, in_all, in_row, small_tally, is_wide_at};

use crate::entry::Entry;
use crate::{Cells, bounds_of};
use cad_feature::Feature;
use std::alloc::AllocError;

/// The cells of the feature's property at that place, if it is a shape.
pub(crate) fn cells_at(feature: &Feature, place: usize) -> Option<Cells>
    ensures { option_map block_at result ≡ block_at_place place feature.now }
{
    if place < feature.values.len() {
        match bounds_of(&feature.values[place]) {
            None => None,
            Some(bounds) => Some(Cells::of(bounds)),
        }
    } else {
        None
    }
}

fn enter_row(
    entries: &mut Vec<Entry>,
    cells: Cells,
    row: u32,
    position: u32,
) -> Result<(), AllocError>
    ensures { IfOk result (λ _. (q : ℕ → ℕ → Bool) (v : ℕ) → entered q v entries.new.items ≡ entered q v entries.old.items + for_position position v (in_row q cells row)) }
{
    for column in cells.left..cells.right + 1 {
        entries.push(Entry {
            row,
            column,
            position,
        })?;
    }
    Ok(())
}

fn enter(entries: &mut Vec<Entry>, cells: Cells, position: u32) -> Result<(), AllocError>
    ensures { IfOk result (λ _. (q : ℕ → ℕ → Bool) (v : ℕ) → entered q v entries.new.items ≡ entered q v entries.old.items + for_position position v (in_all q cells)) }
{
    for row in cells.low..cells.high + 1 {
        enter_row(entries, cells, row, position)?;
    }
    Ok(())
}

/// Enters the shape in its cells, or in the wide list.
pub(crate) fn enter_shape(
    wide: &mut Vec<u32>,
    entries: &mut Vec<Entry>,
    cells: Option<Cells>,
    position: u32,
) -> Result<(), AllocError>
    ensures wide { IfOk result (λ _. (v : ℕ) → hits v wide.new.items ≡ hits v wide.old.items + for_position position v (once (is_wide_at cells))) }
    ensures entries { IfOk result (λ _. (q : ℕ → ℕ → Bool) (v : ℕ) → entered q v entries.new.items ≡ entered q v entries.old.items + for_position position v (small_tally q cells)) }
{
    match cells {
        None => Ok(()),
        Some(cells) => {
            if cells.is_wide() {
                wide.push(position)?;
            } else {
                enter(entries, cells, position)?;
            }
            Ok(())
        }
    }
}
