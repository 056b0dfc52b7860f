//! Whether a feature is a candidate of a plan.

ghost use Rattle.std.specs.Prelude.{◌≡◌, Some};
ghost use Rattle.std.specs.List.{list_all, list_any};
ghost use Rattle.cad_grid.specs.Blocks.{block_of};
ghost use Rattle.cad_grid.specs.Counted.{block_at};
ghost use Rattle.cad_grid.specs.Near.{block_in, is_candidate as is_looked_at, is_near as is_near_of};
ghost use Rattle.cad_feature.specs.Values.{datum_of};
ghost use Rattle.cad_lookup.specs.Candidates.{is_candidate as is_candidate_of};

use cad_feature::{Feature, Value};
use cad_grid::{Cells, bounds_of};
use cad_lookup::Plan;
use cad_range::lies_in;
use cad_shape::Bounds;

// Whether the two have a cell in common, or the feature has more than 64 cells.
fn are_near(own: Cells, asked: Cells) -> bool
    ensures { result ≡ is_looked_at (block_at asked) (Some (block_at own)) }
{
    own.is_wide() || own.share_a_cell(asked)
}

fn is_near_value(value: &Value, bounds: Bounds) -> bool
    ensures { result ≡ is_looked_at (block_of bounds) (block_in (datum_of value.now)) }
{
    match bounds_of(value) {
        None => false,
        Some(own) => are_near(Cells::of(own), Cells::of(bounds)),
    }
}

fn is_near(feature: &Feature, property: usize, bounds: Bounds) -> bool
    ensures { result ≡ is_near_of property (block_of bounds) feature.now }
{
    if property < feature.values.len() {
        is_near_value(&feature.values[property], bounds)
    } else {
        false
    }
}

/// Whether the plan has the feature among its candidates. No memory is taken.
#[cycle(candidacy)]
pub(crate) fn is_candidate(plan: &Plan, feature: &Feature) -> bool
    ensures { result ≡ is_candidate_of plan.now feature.now }
{
    match plan {
        Plan::All => true,
        Plan::Empty => false,
        Plan::Range(range) => lies_in(range, feature),
        Plan::Near { property, bounds } => is_near(feature, *property, *bounds),
        Plan::Meet(plans) => is_candidate_of_all(plans, feature),
        Plan::Join(plans) => is_candidate_of_any(plans, feature),
    }
}

#[cycle(candidacy)]
fn is_candidate_of_all(plans: &[Plan], feature: &Feature) -> bool
    ensures { result ≡ list_all (λ p. is_candidate_of p feature.now) plans.now }
{
    for plan in plans {
        if !is_candidate(plan, feature) {
            return false;
        }
    }
    true
}

#[cycle(candidacy)]
fn is_candidate_of_any(plans: &[Plan], feature: &Feature) -> bool
    ensures { result ≡ list_any (λ p. is_candidate_of p feature.now) plans.now }
{
    for plan in plans {
        if is_candidate(plan, feature) {
            return true;
        }
    }
    false
}
