//! The forms of IN over flags: the OR of the equalities. A flag has no range, so each equality is a condition of its own.

ghost use Rattle.std.specs.Prelude.{◌≡◌, true, IfOk, IfSome, is_some};
ghost use Rattle.std.specs.List.{list_all};
ghost use Rattle.cad_feature.specs.Features.{Item};
ghost use Rattle.cql_lexer.specs.declared.token.Comparison.TheVariants.{Equal};
ghost use Rattle.cql_meaning.specs.Values.{flag_value};
ghost use Rattle.cql_rewrite.specs.Atoms.{HasPlainAtoms, IsAtom};
ghost use Rattle.cql_rewrite.specs.Costs.{any_equal};
ghost use Rattle.cql_rewrite.specs.Meets.{in_side, meets};
ghost use Rattle.cql_rewrite.specs.Terms.{flag_sides, is_plain_flags, met_or};

use crate::form::Normal;
use crate::parts::{add_either, some_of};
use cql_lexer::Comparison;
use cql_types::{Filter, FlagTerm};
use std::alloc::{AllocError, Global};

// A copy of the term.
fn copied(term: &FlagTerm) -> FlagTerm
    ensures { (x : Item) → flag_value x result ≡ flag_value x term.now }
{
    match term {
        FlagTerm::Constant(flag) => FlagTerm::Constant(*flag),
        FlagTerm::Property(property) => FlagTerm::Property(*property),
    }
}

// That the value equals the item, if one of them is a constant.
fn equal_flag<'a>(value: &FlagTerm, item: &FlagTerm) -> Option<Normal<'a>>
    ensures stands { (x : Item) → met_or x result (flag_sides Equal x value.now item.now).yes ≡ (flag_sides Equal x value.now item.now).yes }
    ensures is_there { is_some result ≡ is_plain_flags value.now item.now }
    ensures atoms { IfSome result HasPlainAtoms }
{
    match (value, item) {
        (FlagTerm::Property(_), FlagTerm::Property(_)) => None,
        (FlagTerm::Constant(a), FlagTerm::Constant(b)) => Some(Normal::Constant(*a == *b)),
        _ => Some(Normal::Owned {
            filter: Filter::CompareFlag {
                by: Comparison::Equal,
                left: copied(value),
                right: copied(item),
            },
            side: true,
        }),
    }
}

// The OR of the equalities, if each has a constant.
fn equal_flags<'a>(
    alloc: Global,
    value: &FlagTerm,
    items: &[FlagTerm],
) -> Result<Option<Normal<'a>>, AllocError>
    ensures stands { IfOk result (λ o. (x : Item) → met_or x o (any_equal (flag_sides Equal) x value.now items.now) ≡ any_equal (flag_sides Equal) x value.now items.now) }
    ensures is_there { IfOk result (λ o. list_all (is_plain_flags value.now) items.now ≡ true → is_some o ≡ true) }
    ensures atoms { IfOk result (λ o. IfSome o HasPlainAtoms) }
{
    let mut forms = Vec::new(alloc);
    for item in items {
        let form = equal_flag(value, item);
        match form {
            Some(form) => add_either(&mut forms, form)?,
            None => return Ok(None),
        }
    }
    Ok(Some(some_of(forms)))
}

/// The form of IN over flags.
pub(crate) fn flag_members<'a>(
    alloc: Global,
    filter: &'a Filter,
    value: &FlagTerm,
    items: &[FlagTerm],
    side: bool,
) -> Result<Normal<'a>, AllocError>
    ensures stands { IfOk result (λ n. (x : Item) → in_side true x filter.now ≡ any_equal (flag_sides Equal) x value.now items.now → meets x n ≡ in_side side x filter.now) }
    ensures atoms { IfOk result (λ n. IsAtom filter.now → HasPlainAtoms n) }
{
    if side {
        let form = equal_flags(alloc, value, items)?;
        if let Some(form) = form {
            return Ok(form);
        }
    }
    Ok(Normal::Atom { filter, side })
}
