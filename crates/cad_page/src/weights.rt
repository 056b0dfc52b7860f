//! How long a feature is tested at most, in the times that a number takes which is read and compared.

ghost use Rattle.std.specs.Prelude.{◌≡◌, length, map};
ghost use Rattle.cad_lookup.specs.Ways.{total};
ghost use Rattle.cad_shape.specs.RegionRings.{region_corners};
ghost use Rattle.cad_shape.specs.Shapes.{shape_corners};
ghost use Rattle.cad_page.specs.Weights as spec;
ghost use Rattle.cad_page.specs.Weights.{capped, corners_in, term_weight, weight_if_any};

use cad_ask::Ask;
use cad_shape::{Region, Shape};
use cql_types::{AnyTerm, Filter, ShapeTerm, Step, WholeTerm};

/// Of two texts that are compared.
const TEXT: u64 = 6;

/// Of a text that is compared with a pattern.
const LIKE: u64 = 16;

/// Of two shapes, beside their corners.
const SHAPES: u64 = 32;

#[cycle(numbers)]
fn number_weight(term: &WholeTerm) -> u64
    ensures { result ≡ capped (spec.number_weight term.now) }
{
    match term {
        WholeTerm::Constant(_) | WholeTerm::Property(_) => 1,
        WholeTerm::Computed { first, steps } => {
            number_weight(first).saturating_add(parts_weight(steps))
        }
    }
}

#[cycle(numbers)]
fn parts_weight(steps: &[Step]) -> u64
    ensures { result ≡ capped (total (map spec.part_weight steps.now)) }
{
    let mut weight: u64 = 0;
    for step in steps {
        weight = weight.saturating_add(number_weight(&step.term));
    }
    weight
}

fn numbers_weight(terms: &[WholeTerm]) -> u64
    ensures { result ≡ capped (total (map spec.number_weight terms.now)) }
{
    let mut weight: u64 = 0;
    for term in terms {
        weight = weight.saturating_add(number_weight(term));
    }
    weight
}

fn term_weight_of(term: &AnyTerm) -> u64
    ensures { result ≡ capped (term_weight term.now) }
{
    match term {
        AnyTerm::Whole(term) => number_weight(term),
        AnyTerm::Text(_)
        | AnyTerm::Day(_)
        | AnyTerm::Flag(_)
        | AnyTerm::Span(_)
        | AnyTerm::Shape(_) => 1,
    }
}

fn region_corner_count(region: &Region) -> u64
    ensures { result ≡ length (region_corners region.now) }
{
    let mut count: u64 = 0;
    for ring in region.rings() {
        count += ring.corners().len() as u64;
    }
    count
}

fn corner_count(shape: &Shape) -> u64
    ensures { result ≡ length (shape_corners shape.now) }
{
    match shape {
        Shape::Spot(_) => 1,
        Shape::Frame(_) => 4,
        Shape::Area(region) => region_corner_count(region),
    }
}

fn corners_of(term: &ShapeTerm) -> u64
    ensures { result ≡ corners_in term.now }
{
    match term {
        ShapeTerm::Constant(shape) => corner_count(shape),
        ShapeTerm::Property(_) => 0,
    }
}

#[cycle(weights)]
fn weight_of(filter: &Filter) -> u64
    ensures { result ≡ capped (spec.weight_of filter.now) }
{
    match filter {
        Filter::Truth(_) => 1,
        Filter::CompareWhole { left, right, .. } => {
            number_weight(left).saturating_add(number_weight(right))
        }
        Filter::CompareText { .. } => TEXT,
        Filter::CompareDay { .. } | Filter::CompareFlag { .. } => 2,
        Filter::Like { .. } => LIKE,
        Filter::Between { value, low, high } => number_weight(value)
            .saturating_add(number_weight(low))
            .saturating_add(number_weight(high)),
        Filter::InWhole { value, items } => {
            number_weight(value).saturating_add(numbers_weight(items))
        }
        Filter::InText { items, .. } => TEXT.saturating_mul(items.len() as u64),
        Filter::InDay { items, .. } => 2u64.saturating_mul(items.len() as u64),
        Filter::InFlag { items, .. } => 2u64.saturating_mul(items.len() as u64),
        Filter::IsNull(term) => term_weight_of(term),
        Filter::Spatial { left, right, .. } => SHAPES
            .saturating_add(corners_of(left))
            .saturating_add(corners_of(right)),
        Filter::Temporal { .. } => 4,
        Filter::Not(part) => weight_of(part),
        Filter::And(parts) => weight_of_all(parts),
        Filter::Or(parts) => weight_of_all(parts),
    }
}

#[cycle(weights)]
fn weight_of_all(parts: &[Filter]) -> u64
    ensures { result ≡ capped (total (map spec.weight_of parts.now)) }
{
    let mut weight: u64 = 0;
    for part in parts {
        weight = weight.saturating_add(weight_of(part));
    }
    weight
}

/// How long a feature is tested at most, in the times that a number takes which is read and compared: some nanoseconds each. The longer it is,
/// the fewer features a piece of a search should test. No memory is taken.
pub fn test_weight(ask: &Ask) -> u64
    ensures { result ≡ capped (weight_if_any ask.now.filter) }
{
    match &ask.filter {
        None => 0,
        Some(filter) => weight_of(filter),
    }
}
