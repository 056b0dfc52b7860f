//! A history for which no new base is due.

ghost use Rattle.std.specs.Prelude.{◌≡◌, IfOk};

use crate::History;
use cad_layer::Layer;
use std::alloc::{AllocError, Global};

/// The same features, with new bases if the layer has more changes than `most`.
fn settled_layer(alloc: Global, layer: &Layer, most: usize) -> Result<Layer, AllocError>
    ensures { IfOk result (λ settled. settled ≡ layer.now) }
{
    if layer.is_settled(most) {
        layer.copy()
    } else {
        layer.rebased(alloc, most)
    }
}

/// The same lists of features, each with new bases if it has more changes than `most`.
fn settled_layers(alloc: Global, layers: &[Layer], most: usize) -> Result<Vec<Layer>, AllocError>
    ensures { IfOk result (λ settled. settled.items ≡ layers.now) }
{
    let mut all = Vec::with_capacity(alloc, layers.len())?;
    for layer in layers {
        let settled = settled_layer(alloc, layer, most)?;
        all.push(settled)?;
    }
    Ok(all)
}

impl History {
    ghost use Rattle.std.specs.Prelude.{◌≡◌, IfOk};

    /// Whether neither the newest rows nor a list of earlier ones have more changes to their bases than `most`.
    pub fn is_settled(&self, most: usize) -> bool {
        self.newest().is_settled(most) && self.earlier().iter().all(|layer| layer.is_settled(most))
    }

    /// The same rows, with new bases for the newest and for each list of earlier ones that is not settled. An error means out of memory.
    pub fn settled(&self, alloc: Global, most: usize) -> Result<History, AllocError>
        ensures { IfOk result (λ settled. settled ≡ self.now) }
    {
        // The rows are those of a history.
        let _collection = self.collection();
        let newest = settled_layer(alloc, self.newest(), most)?;
        let earlier = settled_layers(alloc, self.earlier(), most)?;
        Ok(History::of_layers(newest, earlier, self.last()))
    }
}
