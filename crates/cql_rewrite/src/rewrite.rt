//! A filter's normal form.

ghost use Rattle.std.specs.Prelude.{◌≡◌, ◌≤◌, List, IfOk};
ghost use Rattle.cql_meaning.specs.Sides.{yes};
ghost use Rattle.cql_rewrite.specs.Atoms.{HasPlainAtoms};
ghost use Rattle.cql_rewrite.specs.Costs.{bound, bound_on, bounds_joined, least};
ghost use Rattle.cql_rewrite.specs.Meets.{Written, in_side, joined_by, meets};

use crate::between::between;
use crate::comparison::formed;
use crate::flags::flag_members;
use crate::form::Normal;
use crate::likes::likeness;
use crate::members::members;
use crate::parts::{add, add_either, all_of, some_of};
use crate::spatial::spatial;
use crate::terms::{plain_days, plain_texts, plain_wholes};
use cql_types::Filter;
use std::alloc::{AllocError, Global};

/// The form that a feature meets exactly if the filter is true of it. Its cheapest plan costs no more than the filter's
/// bound.
pub fn normal(alloc: Global, filter: &Filter) -> Result<Normal<'_>, AllocError>
    ensures stands { IfOk result (λ n. (x : Written) → meets x.item n ≡ yes filter.now x.item) }
    ensures costs { IfOk result (λ n. (t : List Written) → least t n ≤ bound t filter.now) }
    ensures atoms { IfOk result HasPlainAtoms }
{
    normal_side(alloc, filter, true)
}

// The form of the features of which the filter is true, or of those of which it is false.
#[cycle(rewrite)]
fn normal_side(alloc: Global, filter: &Filter, side: bool) -> Result<Normal<'_>, AllocError>
    ensures stands { IfOk result (λ n. (x : Written) → meets x.item n ≡ in_side side x.item filter.now) }
    ensures costs { IfOk result (λ n. (t : List Written) → least t n ≤ bound_on side t filter.now) }
    ensures atoms { IfOk result HasPlainAtoms }
{
    match filter {
        Filter::Truth(b) => Ok(Normal::Constant(*b == side)),
        Filter::CompareWhole { by, left, right } => {
            formed(alloc, filter, plain_wholes(*by, left, right), side)
        }
        Filter::CompareText { by, left, right } => {
            let plain = plain_texts(alloc, *by, left, right)?;
            formed(alloc, filter, plain, side)
        }
        Filter::CompareDay { by, left, right } => {
            formed(alloc, filter, plain_days(*by, left, right), side)
        }
        Filter::Between { value, low, high } => between(alloc, filter, value, low, high, side),
        Filter::Spatial { by, left, right } => Ok(spatial(filter, *by, left, right, side)),
        Filter::Not(part) => normal_side(alloc, part, !side),
        Filter::And(parts) => normal_parts(alloc, parts, side, side),
        Filter::Or(parts) => normal_parts(alloc, parts, side, !side),
        Filter::Like { value, pattern } => likeness(alloc, filter, value, pattern, side),
        Filter::InWhole { value, items } => members(alloc, filter, value, items, side),
        Filter::InText { value, items } => members(alloc, filter, value, items, side),
        Filter::InDay { value, items } => members(alloc, filter, value, items, side),
        Filter::InFlag { value, items } => flag_members(alloc, filter, value, items, side),
        Filter::CompareFlag { .. } | Filter::IsNull(_) | Filter::Temporal { .. } => {
            Ok(Normal::Atom { filter, side })
        }
    }
}

// The AND or the OR of the parts' forms.
#[cycle(rewrite)]
fn normal_parts(
    alloc: Global,
    parts: &[Filter],
    side: bool,
    all: bool,
) -> Result<Normal<'_>, AllocError>
    ensures stands { IfOk result (λ n. (x : Written) → meets x.item n ≡ joined_by all (in_side side x.item) parts.now) }
    ensures costs { IfOk result (λ n. (t : List Written) → least t n ≤ bounds_joined all side t parts.now) }
    ensures atoms { IfOk result HasPlainAtoms }
{
    if all {
        let mut forms = Vec::new(alloc);
        for part in parts {
            let form = normal_side(alloc, part, side)?;
            add(&mut forms, form)?;
        }
        Ok(all_of(forms))
    } else {
        let mut forms = Vec::new(alloc);
        for part in parts {
            let form = normal_side(alloc, part, side)?;
            add_either(&mut forms, form)?;
        }
        Ok(some_of(forms))
    }
}
