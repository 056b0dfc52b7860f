//! Changes with later changes put into them.

ghost use Rattle.std.specs.Prelude.{◌≡◌, IfOk};
ghost use Rattle.cad_layer.specs.Walks.{all_in, IsInOrder};

use crate::Change;
use crate::both::Both;
use std::alloc::{AllocError, Global};

/// The earlier changes with the later ones. An error means out of memory.
pub(crate) fn with_later(
    alloc: Global,
    earlier: &[Change],
    later: &[Change],
) -> Result<Vec<Change>, AllocError>
    requires { IsInOrder earlier.now later.now }
    ensures { IfOk result (λ all. all.items ≡ all_in earlier.now later.now) }
{
    let mut all = Vec::with_capacity(alloc, earlier.len().saturating_add(later.len()))?;
    let mut both = Both { earlier, later };
    while let Some(next) = both.next() {
        let next = next.copy()?;
        all.push(next)?;
    }
    Ok(all)
}
