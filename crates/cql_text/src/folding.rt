//! Full default case folding.

ghost use Rattle.std.specs.Prelude.{◌≡◌, chars, string_bytes, IfOk};
ghost use Rattle.caseless.specs.Caseless.{default_case_fold};

use caseless::default_case_fold_str;
use std::alloc::{AllocError, Global};

/// The text with full default case folding (The Unicode Standard, section 3.13, toCasefold), by the rows of the crate
/// `caseless`. One character may become up to three.
#[tactic(auto, using(crate::proofs::FoldLemmas::read_back))]
pub fn fold(alloc: Global, text: &str) -> Result<String, AllocError>
    ensures { IfOk result (λ folded. chars (string_bytes folded) ≡ default_case_fold (chars text.now)) }
{
    default_case_fold_str(alloc, text)
}
