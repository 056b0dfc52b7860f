//! Lines with cases, and their answers.

ghost use Rattle.std.specs.Prelude.{◌≤◌, length};
ghost use Rattle.cad_schema.specs.declared.collection.Collection.TheVariants.{Parcels};
ghost use Rattle.cad_feature.specs.Features.{AreFeaturesOf};
ghost use Rattle.cad_ordered.specs.Edges.{IsEdgeOf};

use crate::between::put_extents;
use crate::counts::counts_answer;
use crate::histories::history_answer;
use crate::layers::layer_answer;
use crate::parcels::{Parcel, bare, features};
use crate::values::{bounds, edge, point, rectangle};
use anyhow::Result;
use cad_day::Day;
use cad_feature::{Edge, Feature};
use cad_index::{Found, Grid, Indexes, Ordered};
use cad_positions::Positions;
use cad_schema::{Collection, PropertyKind, find_property};
use std::alloc::{AllocError, Global};

/// Gives the parcel this value of the property, or none.
fn put(alloc: Global, parcel: &mut Parcel, property: &str, word: &str) -> Result<()> {
    match property {
        "begin" => {
            if let Some(day) = Day::read(word) {
                parcel.first = day;
            }
        }
        "end" => parcel.last = Day::read(word),
        "label" => parcel.label = String::from_str(alloc, word)?,
        "area" => parcel.area = word.parse().ok(),
        "geometry" => parcel.shape = rectangle(alloc, word)?,
        "reference_point" => parcel.spot = point(word),
        _ => {}
    }
    Ok(())
}

// A parcel with this value of the property, or without one.
fn parcel(alloc: Global, property: &str, word: &str) -> Result<Parcel> {
    let mut parcel = bare(alloc)?;
    put(alloc, &mut parcel, property, word)?;
    Ok(parcel)
}

/// The parcels with these values of the property, one after another.
pub(crate) fn parcels(alloc: Global, property: &str, words: &str) -> Result<Vec<Parcel>> {
    let mut parcels = Vec::new(alloc);
    for word in words.split_whitespace() {
        parcels.push(parcel(alloc, property, word)?)?;
    }
    Ok(parcels)
}

fn put_positions(answer: &mut String, name: &str, positions: &[u32]) -> Result<(), AllocError> {
    answer.push_str(name)?;
    for position in positions {
        write!(answer, " {position}")?;
    }
    Ok(())
}

fn near_line(alloc: Global, near: &[u32], count: u64) -> Result<String, AllocError> {
    let mut line = String::new(alloc);
    put_positions(&mut line, "near", near)?;
    write!(line, " count {count}")?;
    Ok(line)
}

fn near_answer(alloc: Global, grid: &Grid, asked: &str) -> Result<Option<String>, AllocError> {
    let Some(bounds) = bounds(asked.trim()) else {
        return Ok(None);
    };
    let near = grid.near(alloc, bounds)?;
    Ok(Some(near_line(alloc, &near, grid.count(bounds))?))
}

// The positions whose ranks lie from one on, below another.
fn ranked(alloc: Global, ranks: &[u32], from: u32, to: u32) -> Result<Vec<u32>, AllocError> {
    let mut rows = Vec::new(alloc);
    for (row, rank) in (0..u32::MAX).zip(ranks) {
        if from <= *rank && *rank < to {
            rows.push(row)?;
        }
    }
    Ok(rows)
}

// The positions of the range, for both ways of walking them.
fn found(alloc: Global, range: &Found) -> Result<Vec<u32>, AllocError> {
    let positions = range.positions(alloc)?;
    match positions {
        Positions::Listed(rows) => Ok(rows),
        Positions::Ranked { ranks, from, to } => ranked(alloc, ranks, from, to),
    }
}

fn range_line(
    alloc: Global,
    ordered: &Ordered,
    low: &Edge,
    high: &Edge,
) -> Result<String, AllocError>
    requires low { IsEdgeOf ordered.now.kind low.now }
    requires high { IsEdgeOf ordered.now.kind high.now }
{
    let count = ordered.count(low, high);
    let mut line = String::new(alloc);
    let rows = found(alloc, &ordered.range(low, high))?;
    put_positions(&mut line, "range", &rows)?;
    write!(line, " count {count}")?;
    Ok(line)
}

fn between_answer(
    alloc: Global,
    ordered: &Ordered,
    low: &Edge,
    high: &Edge,
) -> Result<Option<String>, AllocError> {
    if ordered.takes(low) && ordered.takes(high) {
        Ok(Some(range_line(alloc, ordered, low, high)?))
    } else {
        Ok(None)
    }
}

fn from_low_answer(
    alloc: Global,
    ordered: &Ordered,
    kind: PropertyKind,
    low: &Edge,
    high: &str,
) -> Result<Option<String>, AllocError> {
    match edge(alloc, kind, high)? {
        Some(high) => between_answer(alloc, ordered, low, &high),
        None => Ok(None),
    }
}

fn range_answer(
    alloc: Global,
    ordered: &Ordered,
    kind: PropertyKind,
    asked: &str,
) -> Result<Option<String>, AllocError> {
    let Some((low, high)) = asked.trim().split_once(' ') else {
        return Ok(None);
    };
    match edge(alloc, kind, low)? {
        Some(low) => from_low_answer(alloc, ordered, kind, &low, high),
        None => Ok(None),
    }
}

fn index_answer(
    alloc: Global,
    indexes: &Indexes,
    place: usize,
    kind: PropertyKind,
    asked: &str,
) -> Result<Option<String>, AllocError> {
    if let Some(grid) = indexes.grid(place) {
        return near_answer(alloc, grid, asked);
    }
    match indexes.ordered(place) {
        None => Ok(None),
        Some(ordered) => range_answer(alloc, ordered, kind, asked),
    }
}

/// The answer of the index of the property at that place about the features.
fn indexed_answer(
    alloc: Global,
    features: &[Feature],
    place: usize,
    kind: PropertyKind,
    asked: &str,
) -> Result<Option<String>, AllocError>
    requires listed { AreFeaturesOf Parcels features.now }
    requires few { length features.now ≤ 4294967295 }
{
    let indexes = Indexes::build(alloc, features, Collection::Parcels)?;
    index_answer(alloc, &indexes, place, kind, asked)
}

fn read_answer(alloc: Global, line: &str) -> Result<Option<String>> {
    let Some((values, asked)) = line.split_once('?') else {
        return Ok(None);
    };
    let Some((property, words)) = values.split_once(' ') else {
        return Ok(None);
    };
    if property == "layer" {
        return layer_answer(alloc, words, asked);
    }
    if property == "history" {
        return history_answer(alloc, words, asked);
    }
    if property == "counts" {
        return counts_answer(alloc, words, asked);
    }
    let Some((place, kind)) = find_property(Collection::Parcels, property) else {
        return Ok(None);
    };
    let features = features(alloc, parcels(alloc, property, words)?)?;
    let Some(mut answer) = indexed_answer(alloc, &features, place, kind, asked)? else {
        return Ok(None);
    };
    put_extents(alloc, &mut answer, &features, place, kind, asked)?;
    Ok(Some(answer))
}

/// The answer to a line: see the head of the program.
pub fn answer(alloc: Global, line: &str) -> Result<String> {
    match read_answer(alloc, line)? {
        Some(answer) => Ok(answer),
        None => Ok(String::from_str(alloc, "unread")?),
    }
}
