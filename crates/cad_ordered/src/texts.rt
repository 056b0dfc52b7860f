//! The texts of keys in their order, with the numbers of some of them.

ghost use Rattle.std.specs.Prelude.{◌≡◌, ◌≤◌, ◌<◌, ◌%◌, IfOk, Some, chars, get_or, length, map, string_bytes};
ghost use Rattle.cad_feature.specs.Values.{a_text, null};
ghost use Rattle.cad_range.specs.Ranges.{compared};
ghost use Rattle.cad_ordered.specs.inner.Samples.{AreSamples};
ghost use Rattle.cad_ordered.specs.TwoFronts.{AreFrontsOf};

use crate::text_key::{Fronts, TextKey};
use cql_text::compare;
use std::alloc::{AllocError, Global};
use std::cmp::Ordering;
use std::rc::Rc;

/// Texts whose rank is a multiple of this have their numbers in the samples.
const APART: usize = 16;

/// Texts, and as samples the numbers of every sixteenth one. Samples lie side by side in memory, so a search that asks them first reads
/// few texts.
#[derive(Drop)]
pub(crate) struct Texts {
    texts: Vec<Rc<String>>,
    samples: Vec<Fronts>,
    pub ghost sampled: { AreSamples samples.items (map (λ text. string_bytes text.value) texts.items) },
}

impl Texts {
    /// The texts of the keys, which are shared. An error means out of memory.
    pub(crate) fn of(alloc: Global, keys: Vec<TextKey>) -> Result<Texts, AllocError>
        ensures { IfOk result (λ it. map (λ text. a_text (chars (string_bytes text.value))) it.texts.items ≡ map (λ key. a_text (chars (string_bytes key.text.value))) keys.items) }
    {
        let mut texts = Vec::with_capacity(alloc, keys.len())?;
        let mut samples = Vec::with_capacity(alloc, keys.len().div_ceil(APART))?;
        for key in keys {
            let TextKey { fronts, text } = key;
            if texts.len() % APART == 0 {
                samples.push(fronts)?;
            }
            texts.push(text)?;
        }
        Ok(Texts { texts, samples })
    }

    /// How the text at that rank compares with the given one, which has these numbers. The text at that rank is
    /// read only if it has no numbers in the samples, or the same ones.
    pub(crate) fn against(&self, rank: usize, text: &str, fronts: Fronts) -> Ordering
        requires within { rank < length self.now.texts.items }
        requires fronts { AreFrontsOf fronts text.now }
        ensures { compared (get_or (map (λ text. a_text (chars (string_bytes text.value))) self.now.texts.items) rank null) (a_text (chars text.now)) ≡ Some result }
    {
        if rank % APART == 0 {
            let answer = self.samples[rank / APART].cmp(&fronts);
            if answer != Ordering::Equal {
                return answer;
            }
        }
        compare(self.texts[rank].as_ref().as_str(), text)
    }
}

/// A rank from `low` to below `high`, in or near the middle. It is one with a sample if there is one near the middle.
pub(crate) fn place_between(low: u32, high: u32) -> u32
    requires { low < high }
    ensures from { low ≤ result }
    ensures below { result < high }
{
    let middle = low + (high - low) / 2;
    let sampled = middle - middle % APART as u32;
    if low <= sampled { sampled } else { middle }
}
