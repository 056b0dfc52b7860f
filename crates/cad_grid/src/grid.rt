//! A grid of shapes.

ghost use Rattle.std.specs.Prelude.{◌≡◌};

use crate::entering::{cells_at, enter_shape};
use crate::entry::Entry;
use crate::finding::{count_found, list_found};
use crate::passing::{count_passing, list_passing};
use crate::position_test::EveryPosition;
use crate::squares::{SQUARE_WORDS, marks_of};
use crate::{Cells, PositionTest};
use cad_feature::Feature;
use cad_marks::Marks;
use cad_shape::Bounds;
use std::alloc::{AllocError, Global};
use std::marker::Model;

/// The shapes of one property by the cells that their bounds touch. Contracts see the cells of each position.
#[derive(Drop)]
pub struct Grid {
    cells: Vec<Option<Cells>>,
    wide: Vec<u32>,
    entries: Vec<Entry>,
    marks: Marks<SQUARE_WORDS>,
}

impl Model for Grid {
    ghost use Rattle.std.specs.Prelude.{List, Option, map, option_map};
    ghost use Rattle.cad_grid.specs.Blocks.{Block};
    ghost use Rattle.cad_grid.specs.Counted.{block_at};
    ghost use Rattle.cad_grid.specs.Entries.{IsGrid};
    ghost use Rattle.cad_grid.specs.Squares.{AreEntriesMarked};

    ghost Value = { List (Option Block) };

    ghost view = { λ g. map (option_map block_at) g.cells.items };

    ghost invariant = { λ g. IsGrid g.cells.items g.wide.items g.entries.items × AreEntriesMarked g.marks g.entries.items };
}

impl Grid {
    ghost use Rattle.std.specs.Prelude.{◌≡◌, ◌≤◌, IfOk, filter, length};
    ghost use Rattle.cad_grid.specs.Blocks.{block_of};
    ghost use Rattle.cad_grid.specs.Grids.{blocks_at, near_positions};

    /// The grid of the features' property at that place. An error means out of memory.
    pub fn build(alloc: Global, features: &[Feature], place: usize) -> Result<Grid, AllocError>
        requires { length features.now ≤ 4294967295 }
        ensures { IfOk result (λ grid. grid ≡ blocks_at place features.now) }
    {
        let mut all = Vec::with_capacity(alloc, features.len())?;
        let mut wide = Vec::new(alloc);
        let mut entries = Vec::new(alloc);
        for (position, feature) in features.iter().enumerate() {
            let cells = cells_at(feature, place);
            all.push(cells)?;
            enter_shape(&mut wide, &mut entries, cells, position as u32)?;
        }
        entries.sort_unstable();
        let marks = marks_of(alloc, &entries)?;
        Ok(Grid {
            cells: all,
            wide,
            entries,
            marks,
        })
    }

    // Whether the asked cells are many compared with all shapes, so that a look at each shape is cheaper than a walk. A walk searches in
    // each of their rows, and looks at each entry in them.
    fn are_many(&self, asked: Cells) -> bool {
        let shapes = self.cells.len();
        (asked.high - asked.low) as usize >= shapes / 16 || asked.count() > shapes as u64
    }

    /// How many positions are near the box. No memory is taken.
    pub fn count(&self, bounds: Bounds) -> u64
        ensures { result ≡ length (near_positions self.now (block_of bounds)) }
    {
        self.count_passing(bounds, &EveryPosition)
    }

    /// How many of the positions near the box pass. No memory is taken.
    pub fn count_passing<T: PositionTest>(&self, bounds: Bounds, test: &T) -> u64
        ensures { result ≡ length (filter (T.passes test.now) (near_positions self.now (block_of bounds))) }
    {
        let asked = Cells::of(bounds);
        if self.are_many(asked) {
            count_passing(&self.cells, asked, test)
        } else {
            count_found(
                &self.cells,
                &self.wide,
                &self.marks,
                &self.entries,
                asked,
                test,
            )
        }
    }

    /// The positions near the box, in ascending order. An error means out of memory.
    pub fn near(&self, alloc: Global, bounds: Bounds) -> Result<Vec<u32>, AllocError>
        ensures { IfOk result (λ found. found.items ≡ near_positions self.now (block_of bounds)) }
    {
        let asked = Cells::of(bounds);
        if self.are_many(asked) {
            let found = list_passing(alloc, &self.cells, asked)?;
            return Ok(found);
        }
        let mut found = list_found(
            alloc,
            &self.cells,
            &self.wide,
            &self.marks,
            &self.entries,
            asked,
        )?;
        found.sort_unstable();
        Ok(found)
    }
}
