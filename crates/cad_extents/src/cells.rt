//! Which cells the shapes of a property touch.

ghost use Rattle.std.specs.Prelude.{◌≡◌, IfOk, OnOk, Option, Some, false};
ghost use Rattle.cad_grid.specs.Blocks.{Block};
ghost use Rattle.cad_grid.specs.Counted.{block_at};
ghost use Rattle.cad_grid.specs.Near.{block_in, is_candidate};
ghost use Rattle.cad_extents.specs.Extents.{HoldsCells};
ghost use Rattle.cad_feature.specs.Values.{datum_of};

use crate::covered::Covered;
use cad_feature::Value;
use cad_grid::{Cells, bounds_of};
use std::alloc::{AllocError, Global};

/// Which cells the shapes of a property touch.
#[derive(Debug, Drop)]
pub(crate) enum CellExtent {
    /// There is no shape.
    Empty,
    /// No shape touches more than 64 cells, and they touch only these.
    Within(Covered),
    /// The shapes may be any.
    Any,
}

impl CellExtent {
    /// Takes in a shape with these cells. An error means out of memory.
    fn widen_to(&mut self, alloc: Global, cells: Cells) -> Result<(), AllocError>
        ensures own { OnOk result ((b : Option Block) → HoldsCells self.old b → HoldsCells self.new b) }
        ensures more { OnOk result (HoldsCells self.new (Some (block_at cells))) }
    {
        if cells.is_wide() {
            *self = CellExtent::Any;
            return Ok(());
        }
        match self {
            CellExtent::Empty => *self = CellExtent::Within(Covered::of(alloc, cells)?),
            CellExtent::Within(covered) => covered.widen(cells),
            CellExtent::Any => {}
        }
        Ok(())
    }

    /// Takes in one more value, which may be a shape. An error means out of memory.
    pub(crate) fn widen(&mut self, alloc: Global, value: &Value) -> Result<(), AllocError>
        ensures own { OnOk result ((b : Option Block) → HoldsCells self.old b → HoldsCells self.new b) }
        ensures more { OnOk result (HoldsCells self.new (block_in (datum_of value.now))) }
    {
        if let Some(bounds) = bounds_of(value) {
            self.widen_to(alloc, Cells::of(bounds))?;
        }
        Ok(())
    }

    /// The same in memory of its own. An error means out of memory.
    pub(crate) fn copy(&self, alloc: Global) -> Result<CellExtent, AllocError>
        ensures { IfOk result (λ same. (b : Option Block) → HoldsCells self.now b → HoldsCells same b) }
    {
        match self {
            CellExtent::Empty => Ok(CellExtent::Empty),
            CellExtent::Within(covered) => {
                let covered = covered.copy(alloc)?;
                Ok(CellExtent::Within(covered))
            }
            CellExtent::Any => Ok(CellExtent::Any),
        }
    }

    /// Whether such a shape may be near the cells.
    pub(crate) fn may_be_near(&self, asked: Cells) -> bool
        ensures { result ≡ false → (b : Option Block) → HoldsCells self.now b → is_candidate (block_at asked) b ≡ false }
    {
        match self {
            CellExtent::Empty => false,
            CellExtent::Within(covered) => covered.may_share(asked),
            CellExtent::Any => true,
        }
    }
}
