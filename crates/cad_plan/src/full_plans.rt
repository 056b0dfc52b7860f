//! The plan for a normal form that leaves nothing out.

ghost use Rattle.std.specs.Prelude.{◌≡◌, IfOk, map};
ghost use Rattle.cad_grid.specs.Blocks.{block_around};
ghost use Rattle.cad_shape.specs.Shapes.{shape_corners};
ghost use Rattle.cad_lookup.specs.Ways.{near_block, range_way, way_of};
ghost use Rattle.cad_plan.specs.Leaves.{full_way};

use cad_lookup::Plan;
use cad_range::Range;
use cad_shape::{Shape, bounds};
use cql_rewrite::Normal;
use std::alloc::{AllocError, Global};

/// The plan for a range.
pub(crate) fn range_plan(alloc: Global, range: &Range) -> Result<Plan, AllocError>
    ensures { IfOk result (λ plan. way_of plan ≡ range_way range.now) }
{
    let low = range.low.copy(alloc)?;
    let high = range.high.copy(alloc)?;
    Ok(Plan::Range(Range {
        property: range.property,
        low,
        high,
    }))
}

/// The plan for the features near a shape.
pub(crate) fn near_plan(property: usize, shape: &Shape) -> Plan
    ensures { way_of result ≡ near_block property (block_around (shape_corners shape.now)) }
{
    Plan::Near {
        property,
        bounds: bounds(shape),
    }
}

/// The full plan of a normal form: an AND is the meet of its parts, an OR their join, and each condition is a leaf. A leaf is all features if
/// no index helps. A plan that is chosen for the form has some of these leaves. An error means out of memory.
#[cycle(full)]
pub fn full_plan(alloc: Global, form: &Normal) -> Result<Plan, AllocError>
    ensures { IfOk result (λ plan. way_of plan ≡ full_way form.now) }
{
    match form {
        Normal::Constant(true) => Ok(Plan::All),
        Normal::Constant(false) => Ok(Plan::Empty),
        Normal::Range(range) => {
            let plan = range_plan(alloc, range)?;
            Ok(plan)
        }
        Normal::Like { range, .. } => {
            let plan = range_plan(alloc, range)?;
            Ok(plan)
        }
        Normal::Atom { .. } => Ok(Plan::All),
        Normal::Owned { .. } => Ok(Plan::All),
        Normal::Folded(_) => Ok(Plan::All),
        Normal::LikeFolded(_) => Ok(Plan::All),
        Normal::Near {
            property,
            shape,
            ..
        } => Ok(near_plan(*property, shape)),
        Normal::And(parts) => {
            let plans = full_plans(alloc, parts)?;
            Ok(Plan::Meet(plans))
        }
        Normal::Or(parts) => {
            let plans = full_plans(alloc, parts)?;
            Ok(Plan::Join(plans))
        }
    }
}

// The full plan of each part.
#[cycle(full)]
fn full_plans(alloc: Global, parts: &[Normal]) -> Result<Vec<Plan>, AllocError>
    ensures { IfOk result (λ plans. map way_of plans.items ≡ map full_way parts.now) }
{
    let mut plans = Vec::new(alloc);
    for part in parts {
        let plan = full_plan(alloc, part)?;
        plans.push(plan)?;
    }
    Ok(plans)
}
