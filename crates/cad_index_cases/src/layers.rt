//! Lines about layers: parcels into which others are merged, as changes and over a new base.

ghost use Rattle.std.specs.Prelude.{◌≡◌, IfOk};
ghost use Rattle.cad_schema.specs.declared.collection.Collection.TheVariants.{Parcels};

use crate::cases::parcels;
use crate::parcels::features;
use anyhow::Result;
use cad_feature::{Feature, Value};
use cad_layer::Layer;
use cad_schema::{Collection, find_property};
use std::alloc::{AllocError, Global};

/// The parcels with these labels, in segments of that size.
fn base(alloc: Global, labels: &str, of_a_segment: usize) -> Result<Layer>
    ensures { IfOk result (λ layer. layer.collection ≡ Parcels) }
{
    let features = features(alloc, parcels(alloc, "label", labels)?)?;
    Ok(Layer::in_segments(alloc, features, Collection::Parcels, of_a_segment)?)
}

/// The layer with the parcels of these labels merged into it.
fn merged(alloc: Global, layer: &Layer, labels: &str) -> Result<Layer>
    requires { layer.now.collection ≡ Parcels }
    ensures { IfOk result (λ merged. merged.collection ≡ Parcels) }
{
    let touched = features(alloc, parcels(alloc, "label", labels)?)?;
    Ok(layer.with(alloc, touched)?)
}

/// The same so many times, each time anew.
fn merged_times(alloc: Global, layer: Layer, labels: &str, times: u16) -> Result<Layer>
    requires { layer.collection ≡ Parcels }
    ensures { IfOk result (λ merged. merged.collection ≡ Parcels) }
{
    let mut layer = layer;
    for _ in 0..times {
        layer = merged(alloc, &layer, labels)?;
    }
    Ok(layer)
}

/// The same for the labels of several lists, one list after the other.
fn merged_lists(alloc: Global, layer: Layer, lists: &str, times: u16) -> Result<Layer>
    requires { layer.collection ≡ Parcels }
    ensures { IfOk result (λ merged. merged.collection ≡ Parcels) }
{
    let mut layer = layer;
    for labels in lists.split('/') {
        layer = merged_times(alloc, layer, labels, times)?;
    }
    Ok(layer)
}

/// The feature's text at the place of the schema, or `-`.
pub fn label(feature: &Feature, place: usize) -> &str {
    match feature.values.get(place) {
        Some(Value::Text(text)) => text.as_str(),
        _ => "-",
    }
}

fn put_labels(told: &mut String, features: &[Feature], place: usize) -> Result<(), AllocError> {
    for feature in features {
        told.push_str(label(feature, place))?;
        told.push(' ')?;
    }
    Ok(())
}

/// The labels of the layer's parcels, how many it counts, in how many segments, and whether new bases are due.
fn put_layer(
    alloc: Global,
    told: &mut String,
    layer: &Layer,
    place: usize,
    most: usize,
) -> Result<(), AllocError> {
    let all = layer.features(alloc)?;
    put_labels(told, &all, place)?;
    drop(all);
    let state = if layer.is_settled(most) {
        "settled"
    } else {
        "due"
    };
    let segments = layer.segments().len();
    write!(told, "count {} in {segments} {state}", layer.count())
}

/// What is printed for the layer, and for the same over new bases.
fn put_both(
    alloc: Global,
    told: &mut String,
    layer: &Layer,
    place: usize,
    most: usize,
) -> Result<(), AllocError> {
    put_layer(alloc, told, layer, place, most)?;
    told.push_str(" then ")?;
    let rebased = layer.rebased(alloc, most)?;
    put_layer(alloc, told, &rebased, place, most)
}

fn told(alloc: Global, layer: &Layer, place: usize, most: usize) -> Result<String, AllocError> {
    let mut told = String::new(alloc);
    put_both(alloc, &mut told, layer, place, most)?;
    Ok(told)
}

/// The numbers of a line: how many features a segment has, how many times parcels are merged in, and the most changes.
#[derive(Clone, Copy)]
struct Numbers {
    of_a_segment: usize,
    times: u16,
    most: usize,
}

/// The numbers in front, and the text after them.
fn read_numbers(asked: &str) -> Option<(Numbers, &str)> {
    let (of_a_segment, rest) = asked.trim().split_once(' ')?;
    let (times, rest) = rest.split_once(' ')?;
    let (most, rest) = rest.split_once(' ')?;
    let numbers = Numbers {
        of_a_segment: of_a_segment.parse().ok()?,
        times: times.parse().ok()?,
        most: most.parse().ok()?,
    };
    Some((numbers, rest))
}

/// The answer to a line with these labels and this question: see the head of the program.
pub fn layer_answer(alloc: Global, labels: &str, asked: &str) -> Result<Option<String>> {
    let Some((numbers, changed)) = read_numbers(asked) else {
        return Ok(None);
    };
    let Some((place, _)) = find_property(Collection::Parcels, "label") else {
        return Ok(None);
    };
    let base = base(alloc, labels, numbers.of_a_segment)?;
    let layer = merged_lists(alloc, base, changed, numbers.times)?;
    Ok(Some(told(alloc, &layer, place, numbers.most)?))
}
