//! Plans as they are printed, and their candidates.

use crate::ranges::put_range;
use cad_feature::Feature;
use cad_grid::{Cells, bounds_of};
use cad_lookup::Plan;
use cad_range::lies_in;
use cad_schema::{Collection, schema};
use cad_shape::Bounds;
use std::alloc::AllocError;

fn put_near(
    collection: Collection,
    property: usize,
    bounds: Bounds,
    line: &mut String,
) -> Result<(), AllocError> {
    line.push_str("near(")?;
    let properties = schema(collection);
    if property < properties.len() {
        line.push_str(properties[property].name)?;
    }
    let Bounds {
        x_min,
        y_min,
        x_max,
        y_max,
        ..
    } = bounds;
    write!(line, " {x_min},{y_min},{x_max},{y_max})")
}

/// Appends the plan.
#[cycle(printed)]
pub fn put_plan(collection: Collection, plan: &Plan, line: &mut String) -> Result<(), AllocError> {
    match plan {
        Plan::All => line.push_str("all"),
        Plan::Empty => line.push_str("empty"),
        Plan::Range(range) => {
            line.push_str("range(")?;
            put_range(collection, range, line)?;
            line.push_str(")")
        }
        Plan::Near { property, bounds } => put_near(collection, *property, *bounds, line),
        Plan::Meet(plans) => {
            line.push_str("meet(")?;
            put_plans(collection, plans, line)
        }
        Plan::Join(plans) => {
            line.push_str("join(")?;
            put_plans(collection, plans, line)
        }
    }
}

#[cycle(printed)]
fn put_plans(collection: Collection, plans: &[Plan], line: &mut String) -> Result<(), AllocError> {
    for (place, plan) in plans.iter().enumerate() {
        if place > 0 {
            line.push_str("; ")?;
        }
        put_plan(collection, plan, line)?;
    }
    line.push_str(")")
}

fn is_near(feature: &Feature, property: usize, bounds: Bounds) -> bool {
    if property >= feature.values.len() {
        return false;
    }
    match bounds_of(&feature.values[property]) {
        None => false,
        Some(own) => {
            let own = Cells::of(own);
            own.is_wide() || own.share_a_cell(Cells::of(bounds))
        }
    }
}

/// Whether the feature is a candidate of the plan.
#[cycle(looked)]
pub fn has(plan: &Plan, feature: &Feature) -> bool {
    match plan {
        Plan::All => true,
        Plan::Empty => false,
        Plan::Range(range) => lies_in(range, feature),
        Plan::Near { property, bounds } => is_near(feature, *property, *bounds),
        Plan::Meet(plans) => all_have(plans, feature),
        Plan::Join(plans) => some_has(plans, feature),
    }
}

#[cycle(looked)]
fn all_have(plans: &[Plan], feature: &Feature) -> bool {
    for plan in plans {
        if !has(plan, feature) {
            return false;
        }
    }
    true
}

#[cycle(looked)]
fn some_has(plans: &[Plan], feature: &Feature) -> bool {
    for plan in plans {
        if has(plan, feature) {
            return true;
        }
    }
    false
}
