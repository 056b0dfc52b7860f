//! The forms of IN: the OR of the equalities.

ghost use Rattle.std.specs.Prelude.{◌≡◌, ◌≤◌, List, true, IfOk, IfSome, is_some};
ghost use Rattle.std.specs.List.{list_all};
ghost use Rattle.cad_feature.specs.Features.{Item};
ghost use Rattle.cql_lexer.specs.declared.token.Comparison.TheVariants.{Equal};
ghost use Rattle.cql_rewrite.specs.Atoms.{HasPlainAtoms, IsAtom};
ghost use Rattle.cql_rewrite.specs.Costs.{IsCounted, any_equal, count_in, least};
ghost use Rattle.cql_rewrite.specs.Meets.{Written, in_side, meets};
ghost use Rattle.cql_rewrite.specs.Terms.{met_or};

use crate::comparison::exact_form;
use crate::folded::atom;
use crate::form::Normal;
use crate::parts::{add_either, some_of};
use crate::terms::Term;
use cql_lexer::Comparison;
use cql_types::Filter;
use std::alloc::{AllocError, Global};

// That the value equals the item, if this reduces to a constant or a range.
fn equal_item<'a, T: Term>(
    alloc: Global,
    value: &T,
    item: &T,
) -> Result<Option<Normal<'a>>, AllocError>
    ensures stands { IfOk result (λ o. (x : Item) → met_or x o (T.said Equal x value.now item.now).yes ≡ (T.said Equal x value.now item.now).yes) }
    ensures counted { IfOk result (λ o. IfSome o IsCounted) }
    ensures is_there { IfOk result (λ o. T.is_plain Equal value.now item.now ≡ true → is_some o ≡ true) }
    ensures atoms { IfOk result (λ o. IfSome o HasPlainAtoms) }
{
    let plain = T::plain(alloc, Comparison::Equal, value, item)?;
    let form = exact_form(alloc, plain, true)?;
    Ok(form)
}

// The OR of the equalities, if each reduces to a constant or a range.
fn equal_items<'a, T: Term>(
    alloc: Global,
    value: &T,
    items: &[T],
) -> Result<Option<Normal<'a>>, AllocError>
    ensures stands { IfOk result (λ o. (x : Item) → met_or x o (any_equal (T.said Equal) x value.now items.now) ≡ any_equal (T.said Equal) x value.now items.now) }
    ensures costs { IfOk result (λ o. IfSome o (λ n. (t : List Written) → least t n ≤ count_in true t (T.said Equal) value.now items.now)) }
    ensures is_there { IfOk result (λ o. list_all (T.is_plain Equal value.now) items.now ≡ true → is_some o ≡ true) }
    ensures atoms { IfOk result (λ o. IfSome o HasPlainAtoms) }
{
    let mut forms = Vec::new(alloc);
    for item in items {
        let form = equal_item(alloc, value, item)?;
        match form {
            Some(form) => add_either(&mut forms, form)?,
            None => return Ok(None),
        }
    }
    Ok(Some(some_of(forms)))
}

/// The form of IN.
pub(crate) fn members<'a, T: Term>(
    alloc: Global,
    filter: &'a Filter,
    value: &T,
    items: &[T],
    side: bool,
) -> Result<Normal<'a>, AllocError>
    ensures stands { IfOk result (λ n. (x : Item) → in_side true x filter.now ≡ any_equal (T.said Equal) x value.now items.now → meets x n ≡ in_side side x filter.now) }
    ensures costs { IfOk result (λ n. side ≡ true → list_all (T.is_plain Equal value.now) items.now ≡ true → (t : List Written) → least t n ≤ count_in true t (T.said Equal) value.now items.now) }
    ensures atoms { IfOk result (λ n. IsAtom filter.now → HasPlainAtoms n) }
{
    if side {
        let form = equal_items(alloc, value, items)?;
        if let Some(form) = form {
            return Ok(form);
        }
    }
    let form = atom(alloc, filter, side)?;
    Ok(form)
}
