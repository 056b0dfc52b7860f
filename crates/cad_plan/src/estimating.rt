//! What it costs to look at a plan's candidates. No memory is taken.

ghost use Rattle.std.specs.Prelude.{◌≡◌, length, map, min};
ghost use Rattle.cad_lookup.specs.Ways.{cost, counts_of, least_or, most, total, way_of};

use cad_history::FeaturesAt;
use cad_lookup::Plan;

#[cycle(costs)]
fn cost_in(plan: &Plan, features: &FeaturesAt) -> u64
    ensures { result ≡ cost (counts_of features.now.features) (way_of plan.now) }
{
    match plan {
        Plan::All => features.count(),
        Plan::Empty => 0,
        Plan::Range(range) => features.count_in(range),
        Plan::Near { property, bounds } => features.count_near(*property, *bounds),
        Plan::Meet(plans) => least_cost(plans, features),
        Plan::Join(plans) => sum_of_costs(plans, features),
    }
}

// The least of the plans' costs; without plans, that of all features.
#[cycle(costs)]
fn least_cost(plans: &[Plan], features: &FeaturesAt) -> u64
    ensures { result ≡ least_or (length features.now.features) (map (cost (counts_of features.now.features)) (map way_of plans.now)) }
{
    if plans.is_empty() {
        return features.count();
    }
    let mut least = cost_in(&plans[0], features);
    for place in 1..plans.len() {
        least = least.min(cost_in(&plans[place], features));
    }
    least
}

#[cycle(costs)]
fn sum_of_costs(plans: &[Plan], features: &FeaturesAt) -> u64
    ensures { result ≡ min most (total (map (cost (counts_of features.now.features)) (map way_of plans.now))) }
{
    let mut sum: u64 = 0;
    for plan in plans {
        sum = sum.saturating_add(cost_in(plan, features));
    }
    sum
}

/// How many of the features the plan looks at: for a meet the least of its members' numbers, for a join their sum, at most the
/// greatest number of 64 bits.
pub fn estimate(plan: &Plan, features: &FeaturesAt) -> u64
    ensures { result ≡ cost (counts_of features.now.features) (way_of plan.now) }
{
    cost_in(plan, features)
}
