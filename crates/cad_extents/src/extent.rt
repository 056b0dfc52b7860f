//! The extent of one property.

ghost use Rattle.std.specs.Prelude.{◌≡◌, IfOk, OnOk, false};
ghost use Rattle.cad_grid.specs.Counted.{block_at};
ghost use Rattle.cad_grid.specs.Near.{block_in, is_candidate};
ghost use Rattle.cad_extents.specs.Extents.{Holds};
ghost use Rattle.cad_feature.specs.Features.{datum_at};
ghost use Rattle.cad_feature.specs.Limits.{limit_of};
ghost use Rattle.cad_feature.specs.Values.{Datum, datum_of};
ghost use Rattle.cad_range.specs.Ranges.{lies_between};

use crate::cells::CellExtent;
use crate::noted::NotedValues;
use crate::values::ValueExtent;
use cad_feature::{Feature, Range, Value};
use cad_grid::Cells;
use std::alloc::{AllocError, Global};

/// Between which values those of a property lie, which of them may be there, and which cells its shapes touch.
#[derive(Debug, Drop)]
pub(crate) struct Extent {
    values: ValueExtent,
    noted: NotedValues,
    cells: CellExtent,
}

/// The extent of a property for which no feature has a value.
pub(crate) const EMPTY: Extent = Extent {
    values: ValueExtent::Empty,
    noted: NotedValues::Empty,
    cells: CellExtent::Empty,
};

impl Extent {
    /// Takes in one more value. An error means out of memory.
    fn widen(&mut self, alloc: Global, value: &Value) -> Result<(), AllocError>
        ensures own { OnOk result ((d : Datum) → Holds self.old d → Holds self.new d) }
        ensures more { OnOk result (Holds self.new (datum_of value.now)) }
    {
        self.values = self.values.with(value);
        self.noted.widen(alloc, value)?;
        self.cells.widen(alloc, value)?;
        Ok(())
    }

    /// The same in memory of its own. An error means out of memory.
    pub(crate) fn copy(&self, alloc: Global) -> Result<Extent, AllocError>
        ensures { IfOk result (λ same. (d : Datum) → Holds self.now d → Holds same d) }
    {
        let cells = self.cells.copy(alloc)?;
        Ok(Extent {
            values: self.values,
            noted: self.noted.share(),
            cells,
        })
    }

    /// Takes in the feature's value at the place, if it has one. An error means out of memory.
    pub(crate) fn widen_at(
        &mut self,
        alloc: Global,
        feature: &Feature,
        place: usize,
    ) -> Result<(), AllocError>
        ensures own { OnOk result ((d : Datum) → Holds self.old d → Holds self.new d) }
        ensures more { OnOk result (Holds self.new (datum_at feature.now place)) }
    {
        if let Some(value) = feature.value(place) {
            self.widen(alloc, value)?;
        }
        Ok(())
    }

    /// Whether such a value may lie in the range.
    pub(crate) fn may_lie_in(&self, range: &Range) -> bool
        ensures { result ≡ false → (d : Datum) → Holds self.now d → lies_between (limit_of range.now.low) (limit_of range.now.high) d ≡ false }
    {
        self.values.may_lie_in(range) && self.noted.may_lie_in(range)
    }

    /// Whether such a shape may be near the cells.
    pub(crate) fn may_be_near(&self, asked: Cells) -> bool
        ensures { result ≡ false → (d : Datum) → Holds self.now d → is_candidate (block_at asked) (block_in d) ≡ false }
    {
        self.cells.may_be_near(asked)
    }
}
