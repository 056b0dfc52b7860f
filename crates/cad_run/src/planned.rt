//! The positions that a plan gives.

ghost use Rattle.std.specs.Prelude.{◌≡◌, ℕ, IfOk};
ghost use Rattle.cad_lookup.specs.Candidates.{is_candidate};
ghost use Rattle.cad_positions.specs.Has.{has};
ghost use Rattle.cad_run.specs.inner.Parts.{has_all_parts, has_any_part, PartStands, all_hold, any_holds};
ghost use Rattle.cad_run.specs.Positions.{holds_at};

use crate::joining::{joined, met};
use crate::parts::{Part, near_part, range_part, walked};
use cad_index::Base;
use cad_lookup::Plan;
use cad_positions::Source;
use std::alloc::{AllocError, Global};

#[cycle(plan)]
fn part_of<'a>(alloc: Global, plan: &Plan, base: &'a Base) -> Result<Part<'a>, AllocError>
    ensures { IfOk result (PartStands base.now.features (is_candidate plan.now)) }
{
    let count = base.features().len() as u32;
    match plan {
        Plan::All => Ok(Part::Walked(Source::scan(count))),
        Plan::Empty => Ok(Part::Walked(Source::Empty)),
        Plan::Range(range) => {
            let part = range_part(alloc, base, range)?;
            Ok(part)
        }
        Plan::Near { property, bounds } => {
            let part = near_part(alloc, base, *property, *bounds)?;
            Ok(part)
        }
        Plan::Meet(plans) => {
            let parts = parts_of(alloc, plans, base)?;
            let source = met(alloc, parts, count)?;
            Ok(Part::Walked(source))
        }
        Plan::Join(plans) => {
            let parts = parts_of(alloc, plans, base)?;
            let source = joined(alloc, parts)?;
            Ok(Part::Walked(source))
        }
    }
}

#[cycle(plan)]
fn parts_of<'a>(alloc: Global, plans: &[Plan], base: &'a Base) -> Result<Vec<Part<'a>>, AllocError>
    ensures all { IfOk result (λ parts. (k : ℕ) → has_all_parts parts.items k ≡ all_hold plans.now base.now.features k) }
    ensures any { IfOk result (λ parts. (k : ℕ) → has_any_part parts.items k ≡ any_holds plans.now base.now.features k) }
{
    let mut parts = Vec::new(alloc);
    for plan in plans {
        let part = part_of(alloc, plan, base)?;
        parts.push(part)?;
    }
    Ok(parts)
}

/// The positions of the plan's candidates.
pub(crate) fn source_of<'a>(
    alloc: Global,
    plan: &Plan,
    base: &'a Base,
) -> Result<Source<'a>, AllocError>
    ensures { IfOk result (λ source. (k : ℕ) → has source k ≡ holds_at (is_candidate plan.now) base.now.features k) }
{
    let part = part_of(alloc, plan, base)?;
    let source = walked(alloc, part)?;
    Ok(source)
}
