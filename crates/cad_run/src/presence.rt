//! Whether features may be candidates of a plan, by their extents.

ghost use Rattle.std.specs.Prelude.{◌≡◌, false};
ghost use Rattle.std.specs.List.{list_all, list_any};
ghost use Rattle.cad_extents.specs.Extents.{IsWithin};
ghost use Rattle.cad_feature.specs.Features.{Item};
ghost use Rattle.cad_lookup.specs.Candidates.{is_candidate};

use cad_extents::Extents;
use cad_grid::Cells;
use cad_lookup::Plan;

/// Whether one of the features with these extents may be a candidate of the plan. No memory is taken.
#[cycle(presence)]
pub(crate) fn may_have(plan: &Plan, extents: &Extents) -> bool
    ensures { result ≡ false → (x : Item) → IsWithin extents.now x → is_candidate plan.now x ≡ false }
{
    match plan {
        Plan::All => true,
        Plan::Empty => false,
        Plan::Range(range) => extents.may_lie_in(range),
        Plan::Near { property, bounds } => extents.may_be_near(*property, Cells::of(*bounds)),
        Plan::Meet(plans) => all_may_have(plans, extents),
        Plan::Join(plans) => any_may_have(plans, extents),
    }
}

#[cycle(presence)]
fn all_may_have(plans: &[Plan], extents: &Extents) -> bool
    ensures { result ≡ false → (x : Item) → IsWithin extents.now x → list_all (λ p. is_candidate p x) plans.now ≡ false }
{
    for plan in plans {
        if !may_have(plan, extents) {
            return false;
        }
    }
    true
}

#[cycle(presence)]
fn any_may_have(plans: &[Plan], extents: &Extents) -> bool
    ensures { result ≡ false → (x : Item) → IsWithin extents.now x → list_any (λ p. is_candidate p x) plans.now ≡ false }
{
    for plan in plans {
        if may_have(plan, extents) {
            return true;
        }
    }
    false
}
