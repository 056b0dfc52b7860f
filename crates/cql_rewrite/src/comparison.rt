//! The forms of comparisons.

ghost use Rattle.std.specs.Prelude.{◌≡◌, true, IfOk, IfSome, is_some};
ghost use Rattle.cad_feature.specs.Features.{Item};
ghost use Rattle.cql_meaning.specs.Sides.{Sides, sides};
ghost use Rattle.cql_rewrite.specs.Atoms.{HasPlainAtoms, IsAtom};
ghost use Rattle.cql_rewrite.specs.Costs.{IsCounted};
ghost use Rattle.cql_rewrite.specs.Meets.{Written, in_side, meets, side_of};
ghost use Rattle.cql_rewrite.specs.Terms.{is_exact, met_or, plain_sides};

use crate::folded::atom;
use crate::form::Normal;
use crate::plain::{Plain, plain_range, sided};
use cql_types::Filter;
use std::alloc::{AllocError, Global};

/// The form of a comparison, if it reduces to a constant or a range.
pub(crate) fn exact_form<'a>(
    alloc: Global,
    plain: Plain,
    side: bool,
) -> Result<Option<Normal<'a>>, AllocError>
    ensures stands { IfOk result (λ o. (x : Item) (s : Sides) → plain_sides x plain s ≡ s → met_or x o (side_of side s) ≡ side_of side s) }
    ensures counted { IfOk result (λ o. IfSome o IsCounted) }
    ensures is_there { IfOk result (λ o. side ≡ true → is_exact plain ≡ true → is_some o ≡ true) }
    ensures atoms { IfOk result (λ o. IfSome o HasPlainAtoms) }
{
    match plain {
        Plain::Decided(b) => Ok(Some(Normal::Constant(b == side))),
        Plain::Never => Ok(Some(Normal::Constant(false))),
        Plain::Compared {
            property,
            by,
            scalar,
        } => {
            let range = plain_range(alloc, property, sided(by, side), scalar)?;
            match range {
                Some(range) => Ok(Some(Normal::Range(range))),
                None => Ok(None),
            }
        }
        Plain::Other => Ok(None),
    }
}

/// The form of a comparison, by what it reduces to.
pub(crate) fn formed<'a>(
    alloc: Global,
    filter: &'a Filter,
    plain: Plain,
    side: bool,
) -> Result<Normal<'a>, AllocError>
    ensures stands { IfOk result (λ n. (x : Written) → plain_sides x.item plain (sides x.item filter.now) ≡ sides x.item filter.now → meets x.item n ≡ in_side side x.item filter.now) }
    ensures costs { IfOk result (λ n. side ≡ true → is_exact plain ≡ true → IsCounted n) }
    ensures atoms { IfOk result (λ n. IsAtom filter.now → HasPlainAtoms n) }
{
    let form = exact_form(alloc, plain, side)?;
    match form {
        Some(form) => Ok(form),
        None => {
            let form = atom(alloc, filter, side)?;
            Ok(form)
        }
    }
}
