//! Counting the leaves of a plan, some at a time.

ghost use Rattle.std.specs.Prelude.{◌≡◌, ◌+◌, ◌≤◌, [], ◌∷◌, false, IfOk, IsTrue, OnOk, length, map, take};
ghost use Rattle.cad_lookup.specs.Ways.{cost, counts_of, way_of};
ghost use Rattle.cad_plan.specs.Leaves.{AreFirstOf, leaf_counts};
ghost use Rattle.cad_plan.specs.inner.Windows.{AreCounted, counts_of_leaves};

use crate::estimating::estimate;
use cad_history::FeaturesAt;
use cad_lookup::Plan;
use std::alloc::{AllocError, Global};

/// Which of the leaves that come are counted.
#[derive(Drop)]
pub(crate) struct Window {
    /// So many are passed first, as they are counted already.
    pub(crate) skip: u64,
    /// So many are counted after them, at most.
    pub(crate) room: u64,
}

// Counts one leaf, if it is in the window.
fn count_leaf(
    leaf: &Plan,
    features: &FeaturesAt,
    counts: &mut Vec<u64>,
    window: &mut Window,
) -> Result<(), AllocError>
    ensures counted { OnOk result (AreCounted (cost (counts_of features.now.features) (way_of leaf.now) ∷ []) counts.old.items window.old counts.new.items window.new) }
    ensures few { length counts.new.items + window.new.room ≤ length counts.old.items + window.old.room }
{
    if window.skip > 0 {
        window.skip -= 1;
        return Ok(());
    }
    if window.room == 0 {
        return Ok(());
    }
    window.room -= 1;
    counts.push(estimate(leaf, features))?;
    Ok(())
}

// Counts the plan's leaves that are in the window.
#[cycle(leaves)]
fn count_in(
    full: &Plan,
    features: &FeaturesAt,
    counts: &mut Vec<u64>,
    window: &mut Window,
) -> Result<(), AllocError>
    ensures counted { OnOk result (AreCounted (leaf_counts (counts_of features.now.features) (way_of full.now)) counts.old.items window.old counts.new.items window.new) }
    ensures few { length counts.new.items + window.new.room ≤ length counts.old.items + window.old.room }
{
    match full {
        Plan::All => {
            count_leaf(full, features, counts, window)?;
            Ok(())
        }
        Plan::Empty => {
            count_leaf(full, features, counts, window)?;
            Ok(())
        }
        Plan::Range(_) => {
            count_leaf(full, features, counts, window)?;
            Ok(())
        }
        Plan::Near { .. } => {
            count_leaf(full, features, counts, window)?;
            Ok(())
        }
        Plan::Meet(parts) => {
            count_in_all(parts, features, counts, window)?;
            Ok(())
        }
        Plan::Join(parts) => {
            count_in_all(parts, features, counts, window)?;
            Ok(())
        }
    }
}

// The same of some plans, one after the other.
#[cycle(leaves)]
fn count_in_all(
    parts: &[Plan],
    features: &FeaturesAt,
    counts: &mut Vec<u64>,
    window: &mut Window,
) -> Result<(), AllocError>
    ensures counted { OnOk result (AreCounted (counts_of_leaves (counts_of features.now.features) (map way_of parts.now)) counts.old.items window.old counts.new.items window.new) }
    ensures few { length counts.new.items + window.new.room ≤ length counts.old.items + window.old.room }
{
    for part in parts {
        count_in(part, features, counts, window)?;
    }
    Ok(())
}

/// Counts at most so many more of the full plan's leaves, and says whether all are counted then. What a leaf costs is how many features it
/// finds. The counts so far are those of the first leaves. An error means out of memory.
pub fn count_some(
    full: &Plan,
    features: &FeaturesAt,
    counts: &mut Vec<u64>,
    most: u32,
) -> Result<bool, AllocError>
    requires { AreFirstOf counts.old.items (leaf_counts (counts_of features.now.features) (way_of full.now)) }
    ensures counted { IfOk result (λ all. counts.new.items ≡ take (length counts.old.items + most) (leaf_counts (counts_of features.now.features) (way_of full.now))) }
    ensures all { IfOk result (λ all. IsTrue all → counts.new.items ≡ leaf_counts (counts_of features.now.features) (way_of full.now)) }
    ensures more { IfOk result (λ all. all ≡ false → length counts.new.items ≡ length counts.old.items + most) }
    ensures few { length counts.new.items ≤ length counts.old.items + most }
{
    let mut window = Window {
        skip: counts.len() as u64,
        room: u64::from(most),
    };
    count_in(full, features, counts, &mut window)?;
    Ok(window.room > 0)
}

/// The counts of all leaves of the full plan.
pub(crate) fn count_all(
    alloc: Global,
    full: &Plan,
    features: &FeaturesAt,
) -> Result<Vec<u64>, AllocError>
    ensures { IfOk result (λ counts. counts.items ≡ leaf_counts (counts_of features.now.features) (way_of full.now)) }
{
    let mut counts = Vec::new(alloc);
    'leaves: loop {
        let all = count_some(full, features, &mut counts, u32::MAX)?;
        if all {
            return Ok(counts);
        }
    }
}
