//! Lines about counts: how many parcels there are at a revision, and how many of them have a value in a range or near a box.

use crate::between::range;
use crate::histories::history;
use crate::values::bounds;
use anyhow::Result;
use cad_feature::Range;
use cad_history::{FeaturesAt, History};
use cad_schema::{Collection, PropertyKind, find_property};
use cad_shape::Bounds;
use std::alloc::{AllocError, Global};

/// Which parcels are counted: those with a value in the range, or those near the box by the property at the place.
#[derive(Drop)]
enum Matching {
    InRange(Range),
    Near(usize, Bounds),
}

/// The range or the box that the words name.
fn read_matching(
    alloc: Global,
    place: usize,
    kind: PropertyKind,
    words: &str,
) -> Result<Option<Matching>, AllocError> {
    if let Some(bounds) = bounds(words.trim()) {
        return Ok(Some(Matching::Near(place, bounds)));
    }
    match range(alloc, place, kind, words)? {
        None => Ok(None),
        Some(range) => Ok(Some(Matching::InRange(range))),
    }
}

fn count_of(shown: &FeaturesAt, matching: &Matching) -> u64 {
    match matching {
        Matching::InRange(range) => shown.count_in(range),
        Matching::Near(place, bounds) => shown.count_near(*place, *bounds),
    }
}

/// Adds the numbers of all parcels at the revision and of those that match.
fn put_counts(
    answer: &mut String,
    history: &History,
    revision: u64,
    matching: &Matching,
) -> Result<(), AllocError> {
    let shown = FeaturesAt::of(history, revision);
    let count = count_of(&shown, matching);
    write!(answer, "{revision}: {} {count};", shown.count())
}

/// The numbers at each of the revisions.
fn put_all(
    answer: &mut String,
    history: &History,
    revisions: &str,
    matching: &Matching,
) -> Result<bool> {
    for word in revisions.split_whitespace() {
        let Ok(revision) = word.parse() else {
            return Ok(false);
        };
        put_counts(answer, history, revision, matching)?;
    }
    Ok(true)
}

/// The answer to a line with these lists of values of a property, and with these revisions and ends: see the head of the program.
pub fn counts_answer(alloc: Global, lists: &str, rest: &str) -> Result<Option<String>> {
    let Some((property, lists)) = lists.split_once(' ') else {
        return Ok(None);
    };
    let Some((revisions, ends)) = rest.split_once('?') else {
        return Ok(None);
    };
    let Some((place, kind)) = find_property(Collection::Parcels, property) else {
        return Ok(None);
    };
    let Some(matching) = read_matching(alloc, place, kind, ends)? else {
        return Ok(None);
    };
    let history = history(alloc, property, lists)?;
    let mut answer = String::new(alloc);
    if put_all(&mut answer, &history, revisions, &matching)? {
        Ok(Some(answer))
    } else {
        Ok(None)
    }
}
