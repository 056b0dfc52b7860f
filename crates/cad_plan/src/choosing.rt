//! The choice of a plan.

ghost use Rattle.std.specs.Prelude.{◌≡◌, ◌+◌, ◌<◌, IfOk, IsTrue, OnOk, filter, get_or, length, map};
ghost use Rattle.cad_feature.specs.Features.{Item};
ghost use Rattle.cad_lookup.specs.Candidates.{is_candidate};
ghost use Rattle.cad_lookup.specs.Ways.{all_features, cost, counts_of, join_of, min_of, way_of, ways_in};
ghost use Rattle.cql_rewrite.specs.declared.form.Normal.{Normal as NormalOf};
ghost use Rattle.cql_rewrite.specs.inner.Choices.{met as met_of};
ghost use Rattle.cql_rewrite.specs.Meets.{meets};
ghost use Rattle.cql_rewrite.specs.Menus.{IsFirstOfLeast, cheaper, choice, is_narrow, menu};
ghost use Rattle.cad_plan.specs.Leaves.{full_way, leaf_counts};
ghost use Rattle.cad_plan.specs.inner.Pruned.{StandAt, pruned};
ghost use Rattle.cad_plan.specs.inner.Windows.{counts_of_leaves};

use crate::counting::count_all;
use crate::full_plans::{full_plan, range_plan};
use cad_history::FeaturesAt;
use cad_lookup::Plan;
use cql_rewrite::Normal;
use cql_rewrite::laws::{choices_are_the_first_of_least, menus_cover};
use std::alloc::{AllocError, Global};

/// A plan with its cost.
#[derive(Drop)]
pub(crate) struct Priced {
    pub(crate) plan: Plan,
    pub(crate) cost: u64,
}

/// Plans other than all, with the least of their costs, or with the cost of all if there is no such plan.
#[derive(Drop)]
pub(crate) struct NarrowPlans {
    pub(crate) plans: Vec<Plan>,
    pub(crate) cost: u64,
}

impl NarrowPlans {
    ghost use Rattle.std.specs.Prelude.{◌≡◌, OnOk, if◌then◌else◌, map, min, nat_lt};
    ghost use Rattle.cad_lookup.specs.Ways.{way_of};
    ghost use Rattle.cad_plan.specs.inner.Gathered.{with_if};

    // Takes the plan if it costs less than all.
    pub(crate) fn add(&mut self, chosen: Priced, all: u64) -> Result<(), AllocError>
        ensures plans { OnOk result (map way_of self.new.plans.items ≡ with_if (nat_lt chosen.cost all) (map way_of self.old.plans.items) (way_of chosen.plan)) }
        ensures cost { OnOk result (self.new.cost ≡ (if nat_lt chosen.cost all then (min self.old.cost chosen.cost) else self.old.cost)) }
    {
        if chosen.cost >= all {
            return Ok(());
        }
        self.cost = self.cost.min(chosen.cost);
        self.plans.push(chosen.plan)?;
        Ok(())
    }
}

// All, which costs `every`, or the offered plan if it costs less.
fn all_or(offered: Priced, every: u64, features: &FeaturesAt) -> Priced
    requires every { every ≡ length features.now.features }
    requires cost { offered.cost ≡ cost (counts_of features.now.features) (way_of offered.plan) }
    ensures way { way_of result.plan ≡ cheaper (counts_of features.now.features) all_features (way_of offered.plan) }
    ensures cost { result.cost ≡ cost (counts_of features.now.features) (way_of result.plan) }
{
    if offered.cost < every {
        offered
    } else {
        drop(offered);
        Priced {
            plan: Plan::All,
            cost: every,
        }
    }
}

// The next count.
fn next(counts: &[u64], at: &mut usize) -> u64
    requires { at.old < length counts.now }
    ensures count { get_or counts.now at.old result ≡ result }
    ensures at { at.new ≡ at.old + 1 }
{
    let count = counts[*at];
    *at += 1;
    count
}

// The meet of two plans or more, else the only plan, or all.
fn meet(plans: Vec<Plan>) -> Plan
    ensures { way_of result ≡ met_of (map way_of plans.items) }
{
    if plans.is_empty() {
        return Plan::All;
    }
    let mut plans = plans;
    if plans.len() == 1 {
        let only = plans.remove(0);
        return only;
    }
    Plan::Meet(plans)
}

// What is chosen of a full plan, with its cost. The counts of its leaves begin at this place of all counts.
#[cycle(choose)]
fn chosen(
    alloc: Global,
    full: &Plan,
    counts: &[u64],
    at: &mut usize,
    every: u64,
    features: &FeaturesAt,
) -> Result<Priced, AllocError>
    requires every { every ≡ length features.now.features }
    requires counts { StandAt (leaf_counts (counts_of features.now.features) (way_of full.now)) counts.now at.old }
    ensures way { IfOk result (λ chosen. way_of chosen.plan ≡ pruned (counts_of features.now.features) (way_of full.now)) }
    ensures cost { IfOk result (λ chosen. chosen.cost ≡ cost (counts_of features.now.features) (way_of chosen.plan)) }
    ensures at { OnOk result (at.new ≡ at.old + length (leaf_counts (counts_of features.now.features) (way_of full.now))) }
{
    match full {
        Plan::All => {
            let cost = next(counts, at);
            Ok(Priced {
                plan: Plan::All,
                cost,
            })
        }
        Plan::Empty => {
            let cost = next(counts, at);
            let nothing = Priced {
                plan: Plan::Empty,
                cost,
            };
            Ok(all_or(nothing, every, features))
        }
        Plan::Range(range) => {
            let cost = next(counts, at);
            let plan = range_plan(alloc, range)?;
            Ok(all_or(Priced { plan, cost }, every, features))
        }
        Plan::Near { property, bounds } => {
            let cost = next(counts, at);
            let plan = Plan::Near {
                property: *property,
                bounds: *bounds,
            };
            Ok(all_or(Priced { plan, cost }, every, features))
        }
        Plan::Meet(parts) => {
            let narrow = narrow(alloc, parts, counts, at, every, features)?;
            Ok(Priced {
                plan: meet(narrow.plans),
                cost: narrow.cost,
            })
        }
        Plan::Join(parts) => {
            let joined = joined(alloc, parts, counts, at, every, features)?;
            Ok(all_or(joined, every, features))
        }
    }
}

// Those choices of the parts that are other than all.
#[cycle(choose)]
fn narrow(
    alloc: Global,
    parts: &[Plan],
    counts: &[u64],
    at: &mut usize,
    every: u64,
    features: &FeaturesAt,
) -> Result<NarrowPlans, AllocError>
    requires every { every ≡ length features.now.features }
    requires counts { StandAt (counts_of_leaves (counts_of features.now.features) (map way_of parts.now)) counts.now at.old }
    ensures ways { IfOk result (λ narrow. map way_of narrow.plans.items ≡ filter is_narrow (map (pruned (counts_of features.now.features)) (map way_of parts.now))) }
    ensures cost { IfOk result (λ narrow. narrow.cost ≡ min_of (length features.now.features) (map (cost (counts_of features.now.features)) (map way_of narrow.plans.items))) }
    ensures at { OnOk result (at.new ≡ at.old + length (counts_of_leaves (counts_of features.now.features) (map way_of parts.now))) }
{
    let mut narrow = NarrowPlans {
        plans: Vec::new(alloc),
        cost: every,
    };
    for part in parts {
        let chosen = chosen(alloc, part, counts, at, every, features)?;
        narrow.add(chosen, every)?;
    }
    Ok(narrow)
}

// The join of the parts' choices.
#[cycle(choose)]
fn joined(
    alloc: Global,
    parts: &[Plan],
    counts: &[u64],
    at: &mut usize,
    every: u64,
    features: &FeaturesAt,
) -> Result<Priced, AllocError>
    requires every { every ≡ length features.now.features }
    requires counts { StandAt (counts_of_leaves (counts_of features.now.features) (map way_of parts.now)) counts.now at.old }
    ensures way { IfOk result (λ chosen. way_of chosen.plan ≡ join_of (ways_in (map (pruned (counts_of features.now.features)) (map way_of parts.now)))) }
    ensures cost { IfOk result (λ chosen. chosen.cost ≡ cost (counts_of features.now.features) (way_of chosen.plan)) }
    ensures at { OnOk result (at.new ≡ at.old + length (counts_of_leaves (counts_of features.now.features) (map way_of parts.now))) }
{
    let mut plans = Vec::new(alloc);
    let mut cost: u64 = 0;
    for part in parts {
        let chosen = chosen(alloc, part, counts, at, every, features)?;
        cost = cost.saturating_add(chosen.cost);
        plans.push(chosen.plan)?;
    }
    Ok(Priced {
        plan: Plan::Join(plans),
        cost,
    })
}

/// The same as `choose`, from the counts of all leaves of the form's full plan. An error means out of memory.
pub fn choose_counted(
    alloc: Global,
    full: &Plan,
    counts: &[u64],
    features: &FeaturesAt,
) -> Result<Plan, AllocError>
    requires { counts.now ≡ leaf_counts (counts_of features.now.features) (way_of full.now) }
    ensures way { IfOk result (λ plan. (form : NormalOf) → full_way form ≡ way_of full.now → way_of plan ≡ choice (counts_of features.now.features) form) }
    ensures least { IfOk result (λ plan. (form : NormalOf) → full_way form ≡ way_of full.now → IsFirstOfLeast (counts_of features.now.features) (way_of plan) (menu (counts_of features.now.features) form)) }
    ensures covers { IfOk result (λ plan. (form : NormalOf) → full_way form ≡ way_of full.now → (x : Item) → IsTrue (meets x form) → IsTrue (is_candidate plan x)) }
{
    choices_are_the_first_of_least();
    menus_cover();
    let mut at = 0;
    let chosen = chosen(alloc, full, counts, &mut at, features.count(), features)?;
    Ok(chosen.plan)
}

/// The first plan of least cost of the form's menu, for these features. Each feature that meets the form is one of its
/// candidates, whether it is one of these or not. An error means out of memory.
pub fn choose(alloc: Global, form: &Normal, features: &FeaturesAt) -> Result<Plan, AllocError>
    ensures way { IfOk result (λ plan. way_of plan ≡ choice (counts_of features.now.features) form.now) }
    ensures least { IfOk result (λ plan. IsFirstOfLeast (counts_of features.now.features) (way_of plan) (menu (counts_of features.now.features) form.now)) }
    ensures covers { IfOk result (λ plan. (x : Item) → IsTrue (meets x form.now) → IsTrue (is_candidate plan x)) }
{
    let full = full_plan(alloc, form)?;
    let counts = count_all(alloc, &full, features)?;
    let plan = choose_counted(alloc, &full, &counts, features)?;
    Ok(plan)
}
