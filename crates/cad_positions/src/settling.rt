//! The front of a tree of sources from a position on.

ghost use Rattle.std.specs.Prelude.{◌≡◌, ◌||◌, ℕ, Bool};
ghost use Rattle.cad_positions.specs.Has.{has, has_met, has_joined, has_tested};
ghost use Rattle.cad_positions.specs.inner.Heights.{height, height_met, height_joined, height_tested};
ghost use Rattle.cad_positions.specs.Fronts.{behind, found_of};
ghost use Rattle.cad_positions.specs.Left.{IsFront, Settles};

use crate::front::Front;
use crate::ranks::is_ranked;
use crate::source::{Joined, Met, Source, Tested};

/// Drops the positions below `from`, and returns the front.
#[cycle(settle)]
pub(crate) fn settle(source: &mut Source, from: u32) -> Option<u32>
    ensures settles { Settles (has source.old) (has source.new) from result }
    ensures height { height source.new ≡ height source.old }
{
    match source {
        Source::Empty => None,
        Source::Scan { at, end } => {
            if *at < from {
                *at = from;
            }
            if *at < *end { Some(*at) } else { None }
        }
        Source::Listed(listed) => listed.settle(from),
        Source::Tested(tested) => settle_tested(tested, from),
        Source::Met(met) => settle_met(met, from),
        Source::Joined(joined) => settle_joined(joined, from),
    }
}

/// Walks the source until a position has its rank in the range, or is not below the end.
#[cycle(settle)]
fn settle_tested(tested: &mut Tested, from: u32) -> Option<u32>
    ensures settles { Settles (has_tested tested.old) (has_tested tested.new) from result }
    ensures height { height_tested tested.new ≡ height_tested tested.old }
{
    let mut at = from;
    while let Some(row) = settle(&mut tested.source, at) {
        if row >= tested.end {
            return None;
        }
        if is_ranked(tested.end, tested.ranks, tested.from, tested.to, row) {
            return Some(row);
        }
        at = row + 1;
    }
    None
}

/// Moves each side to the other's front, until both are at one position.
#[cycle(settle)]
fn settle_met(met: &mut Met, from: u32) -> Option<u32>
    ensures settles { Settles (has_met met.old) (has_met met.new) from result }
    ensures height { height_met met.new ≡ height_met met.old }
{
    let mut at = from;
    loop {
        let Some(first) = settle(&mut met.first, at) else {
            return None;
        };
        let Some(second) = settle(&mut met.second, first) else {
            return None;
        };
        if first == second {
            return Some(first);
        }
        at = second;
    }
}

/// Settles the sides that are before `from`; the smaller of their fronts is the first of both.
#[cycle(settle)]
fn settle_joined(joined: &mut Joined, from: u32) -> Option<u32>
    ensures settles { Settles (has_joined joined.old) (has_joined joined.new) from result }
    ensures height { height_joined joined.new ≡ height_joined joined.old }
{
    joined.first_front = advance(&mut joined.first, joined.first_front, from);
    joined.second_front = advance(&mut joined.second, joined.second_front, from);
    least(joined.first_front.found(), joined.second_front.found())
}

/// Settles a source, unless its front is known and is at `from` or behind it.
#[cycle(settle)]
fn advance(source: &mut Source, front: Front, from: u32) -> Front
    ensures settles { Settles (behind front (has source.old)) (behind result (has source.new)) from (found_of result) }
    ensures height { height source.new ≡ height source.old }
{
    if front.is_before(from) {
        let found = settle(source, from);
        Front::of(found)
    } else {
        front
    }
}

/// The smaller of two fronts.
fn least(first: Option<u32>, second: Option<u32>) -> Option<u32>
    ensures { (p q : ℕ → Bool) → IsFront p first → IsFront q second → IsFront (λ k. p k || q k) result }
{
    match (first, second) {
        (None, _) => second,
        (_, None) => first,
        (Some(one), Some(other)) => Some(one.min(other)),
    }
}
