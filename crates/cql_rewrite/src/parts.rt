//! The parts of an AND and of an OR.

ghost use Rattle.std.specs.Prelude.{◌≡◌, ◌<◌, ◌≤◌, ◌&&◌, ◌||◌, false, min, true, length, List, IfOk, IfSome, IsTrue, OnOk};
ghost use Rattle.std.specs.List.{list_all, list_any};
ghost use Rattle.cad_feature.specs.Features.{Item};
ghost use Rattle.cad_range.specs.Ranges.{lies_in_if_any};
ghost use Rattle.cql_rewrite.specs.Atoms.{HasPlainAtoms, HavePlainAtoms, KeepsAtoms};
ghost use Rattle.cql_rewrite.specs.Costs.{CostsAll, CostsBoth, CostsEither, CostsPart, every, least, least_of_all, least_of_some, range_count};
ghost use Rattle.cql_rewrite.specs.Meets.{AddsAll, AddsBoth, AddsEither, AddsPart, Written, joined_test, meets};

use crate::form::Normal;
use cad_range::{Range, joined};
use std::alloc::{AllocError, Global};

/// One more part of an AND; the parts of an AND inside it become parts of it.
pub(crate) fn add<'a>(parts: &mut Vec<Normal<'a>>, part: Normal<'a>) -> Result<(), AllocError>
    ensures stands { OnOk result (AddsPart parts.old.items parts.new.items part.entry) }
    ensures costs { OnOk result (CostsPart parts.old.items parts.new.items part.entry) }
    ensures atoms { OnOk result (KeepsAtoms parts.old.items parts.new.items part.entry) }
{
    match part {
        Normal::And(inner) => {
            add_all(parts, inner)?;
            Ok(())
        }
        part => {
            add_one(parts, part)?;
            Ok(())
        }
    }
}

fn add_all<'a>(parts: &mut Vec<Normal<'a>>, inner: Vec<Normal<'a>>) -> Result<(), AllocError>
    ensures stands { OnOk result (AddsAll parts.old.items parts.new.items inner.entry.items) }
    ensures costs { OnOk result (CostsAll parts.old.items parts.new.items inner.entry.items) }
    ensures atoms { OnOk result (HavePlainAtoms parts.old.items → HavePlainAtoms inner.entry.items → HavePlainAtoms parts.new.items) }
{
    for part in inner {
        add_one(parts, part)?;
    }
    Ok(())
}

// One more part; a part that every feature meets is left out.
fn add_one<'a>(parts: &mut Vec<Normal<'a>>, part: Normal<'a>) -> Result<(), AllocError>
    ensures stands { OnOk result (AddsPart parts.old.items parts.new.items part.entry) }
    ensures costs { OnOk result (CostsPart parts.old.items parts.new.items part.entry) }
    ensures atoms { OnOk result (KeepsAtoms parts.old.items parts.new.items part.entry) }
{
    if is_always(&part) {
        drop(part);
        return Ok(());
    }
    add_part(parts, part)?;
    Ok(())
}

// One more part, as it is; a range is joined with one of the same property.
fn add_part<'a>(parts: &mut Vec<Normal<'a>>, part: Normal<'a>) -> Result<(), AllocError>
    ensures stands { OnOk result (AddsPart parts.old.items parts.new.items part.entry) }
    ensures costs { OnOk result (CostsPart parts.old.items parts.new.items part.entry) }
    ensures atoms { OnOk result (KeepsAtoms parts.old.items parts.new.items part.entry) }
{
    match part {
        Normal::Range(range) => {
            add_range(parts, range)?;
            Ok(())
        }
        part => {
            parts.push(part)?;
            Ok(())
        }
    }
}

// A range, which is joined with one of the same property.
fn add_range(parts: &mut Vec<Normal>, range: Range) -> Result<(), AllocError>
    ensures stands { OnOk result (AddsPart parts.old.items parts.new.items (Normal.Range range)) }
    ensures costs { OnOk result (CostsPart parts.old.items parts.new.items (Normal.Range range)) }
    ensures atoms { OnOk result (HavePlainAtoms parts.old.items → HavePlainAtoms parts.new.items) }
{
    if let Some(place) = place_of(parts, range.property) {
        let old = parts.remove(place);
        add_joined(parts, old, range)?;
        Ok(())
    } else {
        parts.push(Normal::Range(range))?;
        Ok(())
    }
}

// Both, as one part if they are ranges of one property.
fn add_joined<'a>(
    parts: &mut Vec<Normal<'a>>,
    old: Normal<'a>,
    range: Range,
) -> Result<(), AllocError>
    ensures stands { OnOk result (AddsBoth parts.old.items parts.new.items old.entry (Normal.Range range)) }
    ensures costs { OnOk result (CostsBoth parts.old.items parts.new.items old.entry (Normal.Range range)) }
    ensures atoms { OnOk result (KeepsAtoms parts.old.items parts.new.items old.entry) }
{
    match old {
        Normal::Range(old) => {
            add_ranges(parts, old, range)?;
            Ok(())
        }
        old => {
            parts.push(old)?;
            parts.push(Normal::Range(range))?;
            Ok(())
        }
    }
}

fn add_ranges(parts: &mut Vec<Normal>, old: Range, range: Range) -> Result<(), AllocError>
    ensures stands { OnOk result (AddsBoth parts.old.items parts.new.items (Normal.Range old) (Normal.Range range)) }
    ensures costs { OnOk result (CostsBoth parts.old.items parts.new.items (Normal.Range old) (Normal.Range range)) }
    ensures atoms { OnOk result (HavePlainAtoms parts.old.items → HavePlainAtoms parts.new.items) }
{
    if old.property == range.property {
        parts.push(range_or_never(joined(old, range)))?;
        Ok(())
    } else {
        parts.push(Normal::Range(old))?;
        parts.push(Normal::Range(range))?;
        Ok(())
    }
}

/// The range, or the form that no feature meets.
pub(crate) fn range_or_never<'a>(range: Option<Range>) -> Normal<'a>
    ensures stands { (x : Item) → meets x result ≡ lies_in_if_any x range }
    ensures costs { (t : List Written) → least t result ≡ range_count t range }
    ensures atoms { HasPlainAtoms result }
{
    match range {
        None => Normal::Constant(false),
        Some(range) => Normal::Range(range),
    }
}

// The place of a range of the property, if there is one.
fn place_of(parts: &[Normal], property: usize) -> Option<usize>
    ensures { IfSome result (λ i. i < length parts.now) }
{
    for (place, part) in parts.iter().enumerate() {
        if let Normal::Range(range) = part {
            if range.property == property {
                return Some(place);
            }
        }
    }
    None
}

/// The AND of the parts.
pub(crate) fn all_of(parts: Vec<Normal<'_>>) -> Normal<'_>
    ensures stands { (x : Item) → meets x result ≡ list_all (meets x) parts.entry.items }
    ensures costs { (t : List Written) → least t result ≤ least_of_all t parts.entry.items }
    ensures atoms { HavePlainAtoms parts.entry.items → HasPlainAtoms result }
{
    if has_never(&parts) {
        return Normal::Constant(false);
    }
    if parts.is_empty() {
        return Normal::Constant(true);
    }
    let mut parts = parts;
    if parts.len() == 1 {
        let only = parts.remove(0);
        return only;
    }
    Normal::And(parts)
}

/// One more part of an OR; a part that no feature meets is left out.
pub(crate) fn add_either<'a>(
    parts: &mut Vec<Normal<'a>>,
    part: Normal<'a>,
) -> Result<(), AllocError>
    ensures stands { OnOk result (AddsEither parts.old.items parts.new.items part.entry) }
    ensures costs { OnOk result (CostsEither parts.old.items parts.new.items part.entry) }
    ensures atoms { OnOk result (KeepsAtoms parts.old.items parts.new.items part.entry) }
{
    if is_never(&part) {
        drop(part);
        return Ok(());
    }
    parts.push(part)?;
    Ok(())
}

/// The OR of the parts.
pub(crate) fn some_of(parts: Vec<Normal<'_>>) -> Normal<'_>
    ensures stands { (x : Item) → meets x result ≡ list_any (meets x) parts.entry.items }
    ensures costs { (t : List Written) → least t result ≤ least_of_some t parts.entry.items }
    ensures atoms { HavePlainAtoms parts.entry.items → HasPlainAtoms result }
{
    if has_always(&parts) {
        return Normal::Constant(true);
    }
    if parts.is_empty() {
        return Normal::Constant(false);
    }
    let mut parts = parts;
    if parts.len() == 1 {
        let only = parts.remove(0);
        return only;
    }
    Normal::Or(parts)
}

fn has_always(parts: &[Normal]) -> bool
    ensures stands { IsTrue result → (x : Item) → list_any (meets x) parts.now ≡ true }
    ensures costs { IsTrue result → (t : List Written) → least_of_some t parts.now ≡ every t }
{
    for part in parts {
        if is_always(part) {
            return true;
        }
    }
    false
}

// Whether the part is the constant that every feature meets.
fn is_always(part: &Normal) -> bool
    ensures { IsTrue result → part.now ≡ Normal.Constant true }
{
    match part {
        Normal::Constant(b) => *b,
        _ => false,
    }
}

// Whether the part is the constant that no feature meets.
fn is_never(part: &Normal) -> bool
    ensures { IsTrue result → part.now ≡ Normal.Constant false }
{
    match part {
        Normal::Constant(b) => !*b,
        _ => false,
    }
}

fn has_never(parts: &[Normal]) -> bool
    ensures { IsTrue result → (x : Item) → list_all (meets x) parts.now ≡ false }
{
    for part in parts {
        if let Normal::Constant(false) = part {
            return true;
        }
    }
    false
}

/// The AND of two forms. An error means out of memory.
pub fn both<'a>(
    alloc: Global,
    first: Normal<'a>,
    second: Normal<'a>,
) -> Result<Normal<'a>, AllocError>
    ensures stands { IfOk result (λ n. (x : Item) → meets x n ≡ (meets x first.entry && meets x second.entry)) }
    ensures costs { IfOk result (λ n. (t : List Written) → least t n ≤ min (least t first.entry) (least t second.entry)) }
    ensures atoms { IfOk result (λ n. HasPlainAtoms first.entry → HasPlainAtoms second.entry → HasPlainAtoms n) }
{
    let mut parts = Vec::new(alloc);
    if let Err(error) = add(&mut parts, first) {
        drop(second);
        return Err(error);
    }
    add(&mut parts, second)?;
    Ok(all_of(parts))
}

fn either<'a>(
    alloc: Global,
    first: Normal<'a>,
    second: Normal<'a>,
) -> Result<Normal<'a>, AllocError>
    ensures stands { IfOk result (λ n. (x : Item) → meets x n ≡ (meets x first.entry || meets x second.entry)) }
    ensures atoms { IfOk result (λ n. HasPlainAtoms first.entry → HasPlainAtoms second.entry → HasPlainAtoms n) }
{
    let mut parts = Vec::new(alloc);
    if let Err(error) = add_either(&mut parts, first) {
        drop(second);
        return Err(error);
    }
    add_either(&mut parts, second)?;
    Ok(some_of(parts))
}

/// The AND of two forms, or their OR.
pub(crate) fn pair<'a>(
    alloc: Global,
    first: Normal<'a>,
    second: Normal<'a>,
    all: bool,
) -> Result<Normal<'a>, AllocError>
    ensures stands { IfOk result (λ n. (x : Item) → meets x n ≡ joined_test all (meets x first.entry) (meets x second.entry)) }
    ensures atoms { IfOk result (λ n. HasPlainAtoms first.entry → HasPlainAtoms second.entry → HasPlainAtoms n) }
{
    if all {
        let form = both(alloc, first, second)?;
        Ok(form)
    } else {
        let form = either(alloc, first, second)?;
        Ok(form)
    }
}
