//! How many candidates a plan has.

ghost use Rattle.std.specs.Prelude.{◌≡◌, IfOk, length};
ghost use Rattle.cad_lookup.specs.Candidates.{candidates};

use crate::candidates::Candidates;
use crate::feature_source::FeatureSource;
use cad_layer::Layer;
use cad_lookup::Plan;
use std::alloc::{AllocError, Global};

/// How many features the source has left. An error means out of memory.
pub fn count_of<'a, S: FeatureSource<'a>>(source: S) -> Result<u64, AllocError>
    ensures { IfOk result (λ count. count ≡ length (S.left source)) }
{
    let mut source = source;
    let mut count = 0;
    while let Some(_feature) = source.next()? {
        count += 1;
    }
    Ok(count)
}

/// How many features of the layer are candidates of the plan. An error means out of memory.
pub fn candidate_count(alloc: Global, plan: &Plan, layer: &Layer) -> Result<u64, AllocError>
    ensures { IfOk result (λ count. count ≡ length (candidates plan.now layer.now.features)) }
{
    let left = Candidates::of(alloc, plan, layer);
    let count = count_of(left)?;
    Ok(count)
}
