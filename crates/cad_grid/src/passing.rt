//! The positions that a look at every shape's cells finds.

ghost use Rattle.std.specs.Prelude.{◌≡◌, ◌≤◌, ◌&&◌, IfOk, filter, length, map, option_map};
ghost use Rattle.cad_grid.specs.Counted.{block_at};
ghost use Rattle.cad_grid.specs.Near.{is_candidate};
ghost use Rattle.cad_grid.specs.Grids.{near_positions};

use crate::{Cells, PositionTest};
use std::alloc::{AllocError, Global};

fn is_near(cells: Option<Cells>, asked: Cells) -> bool
    ensures { result ≡ is_candidate (block_at asked) (option_map block_at cells) }
{
    match cells {
        None => false,
        Some(own) => own.is_wide() || own.share_a_cell(asked),
    }
}

// Whether the position is that of cells near the asked ones, and passes.
fn is_near_and_passes<T: PositionTest>(
    cells: Option<Cells>,
    position: u32,
    asked: Cells,
    test: &T,
) -> bool
    ensures { result ≡ (is_candidate (block_at asked) (option_map block_at cells) && T.passes test.now position) }
{
    is_near(cells, asked) && test.test(position)
}

/// How many of the positions near the asked cells pass.
pub(crate) fn count_passing<T: PositionTest>(cells: &[Option<Cells>], asked: Cells, test: &T) -> u64
    requires { length cells.now ≤ 4294967295 }
    ensures { result ≡ length (filter (T.passes test.now) (near_positions (map (option_map block_at) cells.now) (block_at asked))) }
{
    let mut found: u64 = 0;
    for (position, own) in cells.iter().enumerate() {
        if is_near_and_passes(*own, position as u32, asked, test) {
            found += 1;
        }
    }
    found
}

/// The positions near the asked cells, in ascending order.
pub(crate) fn list_passing(
    alloc: Global,
    cells: &[Option<Cells>],
    asked: Cells,
) -> Result<Vec<u32>, AllocError>
    requires { length cells.now ≤ 4294967295 }
    ensures { IfOk result (λ v. v.items ≡ near_positions (map (option_map block_at) cells.now) (block_at asked)) }
{
    let mut found = Vec::new(alloc);
    for (position, own) in cells.iter().enumerate() {
        if is_near(*own, asked) {
            found.push(position as u32)?;
        }
    }
    Ok(found)
}
