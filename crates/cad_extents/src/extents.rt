//! The extents of all properties.

ghost use Rattle.std.specs.Prelude.{◌≡◌, ◌<◌, IfOk, OnOk, length, set};
ghost use Rattle.std.specs.List.{AllByRecursion};
ghost use Rattle.cad_feature.specs.Features.{Item, datum_at};
ghost use Rattle.cad_feature.specs.Values.{Datum};
ghost use Rattle.cad_extents.specs.Extents.{AreHeld, Holds, extent_at};
ghost use Rattle.cad_extents.specs.declared.extent.Extent.{Extent};

use crate::extent::{EMPTY, Extent};
use cad_feature::{Feature, Range};
use cad_grid::Cells;
use std::alloc::{AllocError, Global};

/// Between which values those of some features lie, property by property in the order of the schema.
#[derive(Debug, Drop)]
pub struct Extents {
    all: Vec<Extent>,
}

/// Widens the extent of the property at the place to the values of its features and of one more. An error means out of memory.
fn widen_at(
    alloc: Global,
    extents: &mut Vec<Extent>,
    feature: &Feature,
    place: usize,
) -> Result<(), AllocError>
    requires { place < length extents.old.items }
    ensures { OnOk result ((e : Extent) × (extents.new.items ≡ set extents.old.items place e) × ((d : Datum) → Holds (extent_at extents.old.items place) d → Holds e d) × Holds e (datum_at feature.now place)) }
{
    extents[place].widen_at(alloc, feature, place)?;
    Ok(())
}

/// Widens the extents to those of these features and one more. An error means out of memory.
fn widen(alloc: Global, extents: &mut Vec<Extent>, feature: &Feature) -> Result<(), AllocError>
    ensures own { OnOk result ((x : Item) → AreHeld extents.old.items x → AreHeld extents.new.items x) }
    ensures more { OnOk result (AreHeld extents.new.items feature.now) }
{
    for place in 0..extents.len() {
        widen_at(alloc, extents, feature, place)?;
    }
    Ok(())
}

/// Widens the extents to those of these features and of others. An error means out of memory.
fn widen_by_all(
    alloc: Global,
    extents: &mut Vec<Extent>,
    features: &[Feature],
) -> Result<(), AllocError>
    ensures own { OnOk result ((x : Item) → AreHeld extents.old.items x → AreHeld extents.new.items x) }
    ensures more { OnOk result (AllByRecursion (AreHeld extents.new.items) features.now) }
{
    let mut rest = features;
    while let Some((feature, behind)) = rest.split_last() {
        widen(alloc, extents, feature)?;
        rest = behind;
    }
    Ok(())
}

/// The same extents in memory of their own. An error means out of memory.
fn copies(alloc: Global, extents: &[Extent]) -> Result<Vec<Extent>, AllocError>
    ensures { IfOk result (λ all. (x : Item) → AreHeld extents.now x → AreHeld all.items x) }
{
    let mut all = Vec::with_capacity(alloc, extents.len())?;
    for extent in extents {
        let same = extent.copy(alloc)?;
        all.push(same)?;
    }
    Ok(all)
}

/// The extents of the given number of properties, of which no feature has a value. An error means out of memory.
fn empty(alloc: Global, properties: usize) -> Result<Vec<Extent>, AllocError> {
    let mut all = Vec::with_capacity(alloc, properties)?;
    for _ in 0..properties {
        all.push(EMPTY)?;
    }
    Ok(all)
}

impl Extents {
    ghost use Rattle.std.specs.Prelude.{◌≡◌, IfOk, true, false};
    ghost use Rattle.std.specs.List.{AllByRecursion};
    ghost use Rattle.cad_grid.specs.Counted.{block_at};
    ghost use Rattle.cad_grid.specs.Near.{is_near};
    ghost use Rattle.cad_feature.specs.Features.{Item};
    ghost use Rattle.cad_range.specs.Ranges.{lies_in};
    ghost use Rattle.cad_extents.specs.Extents.{IsWithin};

    /// The extents of these features, for the given number of properties. An error means out of memory.
    pub fn of(alloc: Global, features: &[Feature], properties: usize) -> Result<Extents, AllocError>
        ensures { IfOk result (λ extents. AllByRecursion (IsWithin extents) features.now) }
    {
        let mut all = empty(alloc, properties)?;
        widen_by_all(alloc, &mut all, features)?;
        Ok(Extents { all })
    }

    /// The extents of the same features and of the given ones. An error means out of memory.
    pub fn with(&self, alloc: Global, features: &[Feature]) -> Result<Extents, AllocError>
        ensures own { IfOk result (λ extents. (x : Item) → IsWithin self.now x → IsWithin extents x) }
        ensures more { IfOk result (λ extents. AllByRecursion (IsWithin extents) features.now) }
    {
        let mut all = copies(alloc, &self.all)?;
        widen_by_all(alloc, &mut all, features)?;
        Ok(Extents { all })
    }

    /// Whether one of them may have a value in the range.
    pub fn may_lie_in(&self, range: &Range) -> bool
        ensures { result ≡ false → (x : Item) → IsWithin self.now x → lies_in x range.now ≡ false }
    {
        match self.all.get(range.property) {
            None => true,
            Some(extent) => extent.may_lie_in(range),
        }
    }

    /// Whether the shape that one of them has of the property may be near the cells.
    pub fn may_be_near(&self, property: usize, asked: Cells) -> bool
        ensures { result ≡ false → (x : Item) → IsWithin self.now x → is_near property (block_at asked) x ≡ false }
    {
        match self.all.get(property) {
            None => true,
            Some(extent) => extent.may_be_near(asked),
        }
    }
}
