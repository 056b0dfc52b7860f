//! Terms without a property, whose value is the same on every feature.

ghost use Rattle.std.specs.Prelude.{◌≡◌, IfOk};
ghost use Rattle.cad_feature.specs.Features.{Item};
ghost use Rattle.cql_meaning.specs.Arithmetic.{whole_value};
ghost use Rattle.cql_meaning.specs.Constants.{text_or, whole_or};
ghost use Rattle.cql_meaning.specs.Values.{text_value};

use crate::whole::made;
use cql_text::fold;
use cql_types::{TextTerm, WholeTerm};
use std::alloc::{AllocError, Global};

/// The value that the term has on every feature, if no property is inside it: `Some(None)` of `1 div 0`, and `None` of
/// `area - area`.
pub fn constant_whole(term: &WholeTerm) -> Option<Option<i64>>
    ensures { (x : Item) → whole_or result (whole_value x term.now) ≡ whole_value x term.now }
{
    match term {
        WholeTerm::Constant(number) => Some(Some(*number)),
        WholeTerm::Property(_) => None,
        WholeTerm::Computed { first, steps } => {
            let mut value = constant_whole(first)?;
            for step in steps {
                value = made(step.by, constant_whole(&step.term)?, value);
            }
            Some(value)
        }
    }
}

/// The text that the term has on every feature, if no property is inside it. `CASEI('Ana')` is `ana`.
pub fn constant_text(alloc: Global, term: &TextTerm) -> Result<Option<String>, AllocError>
    ensures { IfOk result (λ text. (x : Item) → text_or text (text_value x term.now) ≡ text_value x term.now) }
{
    match term {
        TextTerm::Constant(text) => {
            let text = String::from_str(alloc, text.as_str())?;
            Ok(Some(text))
        }
        TextTerm::Property(_) => Ok(None),
        TextTerm::Folded(term) => {
            let text = constant_text(alloc, term)?;
            match text {
                Some(text) => {
                    let text = fold(alloc, text.as_str())?;
                    Ok(Some(text))
                }
                None => Ok(None),
            }
        }
    }
}
