//! The plans for a normal form.

ghost use Rattle.std.specs.Prelude.{◌≡◌, [], ◌∷◌, ◌++◌, IfOk, IsTrue, OnOk, filter, map};
ghost use Rattle.std.specs.List.{list_all};
ghost use Rattle.cad_feature.specs.Features.{Item};
ghost use Rattle.cad_lookup.specs.Candidates.{is_candidate};
ghost use Rattle.cad_lookup.specs.Ways.{all_features, counts_of, join_of, way_of, ways_in};
ghost use Rattle.cql_rewrite.specs.Meets.{meets};
ghost use Rattle.cql_rewrite.specs.Menus.{and_menu, choice, is_narrow, menu as menu_of};

use crate::choosing::{NarrowPlans, Priced, choose};
use crate::estimating::estimate;
use crate::full_plans::{near_plan, range_plan};
use cad_history::FeaturesAt;
use cad_lookup::Plan;
use cql_rewrite::Normal;
use cql_rewrite::laws::menus_cover;
use std::alloc::{AllocError, Global};

// The choice of each part.
fn add_choices(
    alloc: Global,
    plans: &mut Vec<Plan>,
    parts: &[Normal],
    features: &FeaturesAt,
) -> Result<(), AllocError>
    ensures { OnOk result (map way_of plans.new.items ≡ map way_of plans.old.items ++ map (choice (counts_of features.now.features)) parts.now) }
{
    for part in parts {
        let plan = choose(alloc, part, features)?;
        plans.push(plan)?;
    }
    Ok(())
}

// Those choices of the parts that are other than all.
fn narrow(alloc: Global, parts: &[Normal], features: &FeaturesAt) -> Result<NarrowPlans, AllocError>
    ensures { IfOk result (λ narrow. map way_of narrow.plans.items ≡ filter is_narrow (map (choice (counts_of features.now.features)) parts.now)) }
{
    let all = features.count();
    let mut narrow = NarrowPlans {
        plans: Vec::new(alloc),
        cost: all,
    };
    for part in parts {
        let plan = choose(alloc, part, features)?;
        let cost = estimate(&plan, features);
        narrow.add(Priced { plan, cost }, all)?;
    }
    Ok(narrow)
}

// The join of the parts' choices.
fn joined(alloc: Global, parts: &[Normal], features: &FeaturesAt) -> Result<Plan, AllocError>
    ensures { IfOk result (λ plan. way_of plan ≡ join_of (ways_in (map (choice (counts_of features.now.features)) parts.now))) }
{
    let mut plans = Vec::new(alloc);
    add_choices(alloc, &mut plans, parts, features)?;
    Ok(Plan::Join(plans))
}

// All, the meet of the parts' choices that are other than all, if there are two or more of them, and each part's choice.
fn of_all(alloc: Global, parts: &[Normal], features: &FeaturesAt) -> Result<Vec<Plan>, AllocError>
    ensures { IfOk result (λ plans. map way_of plans.items ≡ and_menu (map (choice (counts_of features.now.features)) parts.now)) }
{
    let narrow = narrow(alloc, parts, features)?;
    let mut plans = Vec::new(alloc);
    plans.push(Plan::All)?;
    if narrow.plans.len() >= 2 {
        plans.push(Plan::Meet(narrow.plans))?;
    }
    add_choices(alloc, &mut plans, parts, features)?;
    Ok(plans)
}

fn pair(alloc: Global, plan: Plan) -> Result<Vec<Plan>, AllocError>
    ensures { IfOk result (λ plans. map way_of plans.items ≡ all_features ∷ way_of plan ∷ []) }
{
    let mut plans = Vec::new(alloc);
    plans.push(Plan::All)?;
    plans.push(plan)?;
    Ok(plans)
}

fn only_all(alloc: Global) -> Result<Vec<Plan>, AllocError>
    ensures { IfOk result (λ plans. map way_of plans.items ≡ all_features ∷ []) }
{
    let mut plans = Vec::new(alloc);
    plans.push(Plan::All)?;
    Ok(plans)
}

fn plans_for(alloc: Global, form: &Normal, features: &FeaturesAt) -> Result<Vec<Plan>, AllocError>
    ensures { IfOk result (λ plans. map way_of plans.items ≡ menu_of (counts_of features.now.features) form.now) }
{
    match form {
        Normal::Constant(true) => {
            let plans = only_all(alloc)?;
            Ok(plans)
        }
        Normal::Constant(false) => {
            let plans = pair(alloc, Plan::Empty)?;
            Ok(plans)
        }
        Normal::Range(range) => {
            let plan = range_plan(alloc, range)?;
            let plans = pair(alloc, plan)?;
            Ok(plans)
        }
        Normal::Like { range, .. } => {
            let plan = range_plan(alloc, range)?;
            let plans = pair(alloc, plan)?;
            Ok(plans)
        }
        Normal::Atom { .. } => {
            let plans = only_all(alloc)?;
            Ok(plans)
        }
        Normal::Owned { .. } => {
            let plans = only_all(alloc)?;
            Ok(plans)
        }
        Normal::Folded(_) => {
            let plans = only_all(alloc)?;
            Ok(plans)
        }
        Normal::LikeFolded(_) => {
            let plans = only_all(alloc)?;
            Ok(plans)
        }
        Normal::Near {
            property,
            shape,
            ..
        } => {
            let plans = pair(alloc, near_plan(*property, shape))?;
            Ok(plans)
        }
        Normal::And(parts) => {
            let plans = of_all(alloc, parts, features)?;
            Ok(plans)
        }
        Normal::Or(parts) => {
            let joined = joined(alloc, parts, features)?;
            let plans = pair(alloc, joined)?;
            Ok(plans)
        }
    }
}

/// The plans for the form, in order, for these features. Each feature that meets the form is a candidate of each plan, whether
/// it is one of these or not. An error means out of memory.
pub fn menu(alloc: Global, form: &Normal, features: &FeaturesAt) -> Result<Vec<Plan>, AllocError>
    ensures ways { IfOk result (λ plans. map way_of plans.items ≡ menu_of (counts_of features.now.features) form.now) }
    ensures covers { IfOk result (λ plans. (x : Item) → IsTrue (meets x form.now) → IsTrue (list_all (λ plan. is_candidate plan x) plans.items)) }
{
    menus_cover();
    let plans = plans_for(alloc, form, features)?;
    Ok(plans)
}
