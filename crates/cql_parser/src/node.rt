//! Nodes from their parts.

ghost use Rattle.std.specs.Prelude.{◌≡◌, [], ◌∷◌, IfOk, string_bytes};
ghost use Rattle.cql_tree.specs.Syntax.{joined, leaf, name_leaf, text_leaf, truth_leaf, or_op, and_op, computed_op, spatial_op, temporal_op, casei_op, date_op, interval_op, point_op, polygon_op, bbox_op, day_leaf, bound_leaf, number_leaf};
ghost use Rattle.cql_parser.specs.inner.Starts.{pair_op};
ghost use Rattle.cql_parser.specs.Machine.{not_node, compare_node, like_node, between_node, in_node, null_node, filled};
ghost use Rattle.cql_tree.specs.Views.{syntax_of, syntaxes_of, operands_of, operations_of, number_of, bound_of, numbers_of, rings_of};

use crate::start::Pairing;
use cad_day::Relation;
use cql_lexer::{Comparison, SpatialRelation};
use cql_tree::{Bound, Corner, Expression, Number, Operand, Ring};
use std::alloc::{AllocError, Global};

/// The parts joined by OR; a single part is returned as it is.
pub(crate) fn or_tree(
    alloc: Global,
    first: Box<Expression>,
    others: Vec<Expression>,
) -> Result<Box<Expression>, AllocError>
    ensures { IfOk result (λ t. syntax_of t.value ≡ joined or_op (syntax_of first.value ∷ syntaxes_of others.items)) }
{
    if others.is_empty() {
        return Ok(first);
    }
    Ok(Box::new(alloc, Expression::Or { first, others })?)
}

/// The parts joined by AND; a single part is returned as it is.
pub(crate) fn and_tree(
    alloc: Global,
    first: Box<Expression>,
    others: Vec<Expression>,
) -> Result<Box<Expression>, AllocError>
    ensures { IfOk result (λ t. syntax_of t.value ≡ joined and_op (syntax_of first.value ∷ syntaxes_of others.items)) }
{
    if others.is_empty() {
        return Ok(first);
    }
    Ok(Box::new(alloc, Expression::And { first, others })?)
}

/// The parts computed from the left; a single part is returned as it is.
pub(crate) fn computed_tree(
    alloc: Global,
    first: Box<Expression>,
    others: Vec<Operand>,
) -> Result<Box<Expression>, AllocError>
    ensures { IfOk result (λ t. syntax_of t.value ≡
        joined (computed_op (operations_of others.items)) (syntax_of first.value ∷ operands_of others.items)) }
{
    if others.is_empty() {
        return Ok(first);
    }
    Ok(Box::new(alloc, Expression::Computed { first, others })?)
}

/// A tree with NOT before it.
#[tactic(auto, unfolding(cql_tree::specs::Views::syntax_of))]
pub(crate) fn not_tree(
    alloc: Global,
    place: usize,
    part: Box<Expression>,
) -> Result<Box<Expression>, AllocError>
    ensures { IfOk result (λ t. syntax_of t.value ≡ not_node place (syntax_of part.value)) }
{
    Ok(Box::new(alloc, Expression::Not { place, part })?)
}

/// Two trees compared.
#[tactic(auto, unfolding(cql_tree::specs::Views::syntax_of))]
pub(crate) fn compare_tree(
    alloc: Global,
    by: Comparison,
    left: Box<Expression>,
    right: Box<Expression>,
) -> Result<Box<Expression>, AllocError>
    ensures { IfOk result (λ t. syntax_of t.value ≡ compare_node by (syntax_of left.value) (syntax_of right.value)) }
{
    Ok(Box::new(alloc, Expression::Compare { by, left, right })?)
}

/// A value compared with a pattern.
#[tactic(auto, unfolding(cql_tree::specs::Views::syntax_of))]
pub(crate) fn like_tree(
    alloc: Global,
    is_negated: bool,
    value: Box<Expression>,
    pattern: Box<Expression>,
) -> Result<Box<Expression>, AllocError>
    ensures { IfOk result (λ t. syntax_of t.value ≡ like_node is_negated (syntax_of value.value) (syntax_of pattern.value)) }
{
    let tree = Expression::Like {
        is_negated,
        value,
        pattern,
    };
    Ok(Box::new(alloc, tree)?)
}

/// A value between two others.
#[tactic(auto, unfolding(cql_tree::specs::Views::syntax_of))]
pub(crate) fn between_tree(
    alloc: Global,
    is_negated: bool,
    value: Box<Expression>,
    low: Box<Expression>,
    high: Box<Expression>,
) -> Result<Box<Expression>, AllocError>
    ensures { IfOk result (λ t. syntax_of t.value ≡
        between_node is_negated (syntax_of value.value) (syntax_of low.value) (syntax_of high.value)) }
{
    let tree = Expression::Between {
        is_negated,
        value,
        low,
        high,
    };
    Ok(Box::new(alloc, tree)?)
}

/// A value among others.
pub(crate) fn in_tree(
    alloc: Global,
    is_negated: bool,
    value: Box<Expression>,
    first: Box<Expression>,
    others: Vec<Expression>,
) -> Result<Box<Expression>, AllocError>
    ensures { IfOk result (λ t. syntax_of t.value ≡
        in_node is_negated (syntax_of value.value) (syntax_of first.value ∷ syntaxes_of others.items)) }
{
    let tree = Expression::In {
        is_negated,
        value,
        first,
        others,
    };
    Ok(Box::new(alloc, tree)?)
}

/// A value that is tested for null.
#[tactic(auto, unfolding(cql_tree::specs::Views::syntax_of))]
pub(crate) fn null_tree(
    alloc: Global,
    is_negated: bool,
    value: Box<Expression>,
) -> Result<Box<Expression>, AllocError>
    ensures { IfOk result (λ t. syntax_of t.value ≡ null_node is_negated (syntax_of value.value)) }
{
    Ok(Box::new(alloc, Expression::IsNull { is_negated, value })?)
}

/// A text whose case is folded.
#[tactic(auto, unfolding(cql_tree::specs::Views::syntax_of))]
pub(crate) fn casei_tree(
    alloc: Global,
    place: usize,
    part: Box<Expression>,
) -> Result<Box<Expression>, AllocError>
    ensures { IfOk result (λ t. syntax_of t.value ≡ filled (casei_op place) (syntax_of part.value ∷ [])) }
{
    Ok(Box::new(alloc, Expression::Casei { place, part })?)
}

/// Two shapes compared.
#[tactic(auto, unfolding(cql_tree::specs::Views::syntax_of))]
pub(crate) fn spatial_tree(
    alloc: Global,
    place: usize,
    by: SpatialRelation,
    left: Box<Expression>,
    right: Box<Expression>,
) -> Result<Box<Expression>, AllocError>
    ensures { IfOk result (λ t. syntax_of t.value ≡
        filled (spatial_op place by) (syntax_of left.value ∷ syntax_of right.value ∷ [])) }
{
    let tree = Expression::Spatial {
        place,
        by,
        left,
        right,
    };
    Ok(Box::new(alloc, tree)?)
}

/// Two spans of days compared.
#[tactic(auto, unfolding(cql_tree::specs::Views::syntax_of))]
pub(crate) fn temporal_tree(
    alloc: Global,
    place: usize,
    by: Relation,
    left: Box<Expression>,
    right: Box<Expression>,
) -> Result<Box<Expression>, AllocError>
    ensures { IfOk result (λ t. syntax_of t.value ≡
        filled (temporal_op place by) (syntax_of left.value ∷ syntax_of right.value ∷ [])) }
{
    let tree = Expression::Temporal {
        place,
        by,
        left,
        right,
    };
    Ok(Box::new(alloc, tree)?)
}

/// A name.
#[tactic(auto, unfolding(cql_tree::specs::Views::syntax_of))]
pub(crate) fn name_tree(
    alloc: Global,
    place: usize,
    name: &String,
) -> Result<Box<Expression>, AllocError>
    ensures { IfOk result (λ t. syntax_of t.value ≡ leaf place (name_leaf (string_bytes name.now))) }
{
    let name = name.clone()?;
    Ok(Box::new(alloc, Expression::Name { place, name })?)
}

/// A text.
#[tactic(auto, unfolding(cql_tree::specs::Views::syntax_of))]
pub(crate) fn text_tree(
    alloc: Global,
    place: usize,
    content: &String,
) -> Result<Box<Expression>, AllocError>
    ensures { IfOk result (λ t. syntax_of t.value ≡ leaf place (text_leaf (string_bytes content.now))) }
{
    let content = content.clone()?;
    Ok(Box::new(alloc, Expression::Text { place, content })?)
}

/// TRUE or FALSE.
#[tactic(auto, unfolding(cql_tree::specs::Views::syntax_of))]
pub(crate) fn truth_tree(
    alloc: Global,
    place: usize,
    value: bool,
) -> Result<Box<Expression>, AllocError>
    ensures { IfOk result (λ t. syntax_of t.value ≡ leaf place (truth_leaf value)) }
{
    Ok(Box::new(alloc, Expression::Truth { place, value })?)
}

/// A number.
#[tactic(auto, unfolding(cql_tree::specs::Views::syntax_of))]
pub(crate) fn number_tree(alloc: Global, number: Number) -> Result<Box<Expression>, AllocError>
    ensures { IfOk result (λ t. syntax_of t.value ≡ number_of number) }
{
    Ok(Box::new(alloc, Expression::Number(number))?)
}

/// A day.
#[tactic(auto, unfolding(cql_tree::specs::Views::syntax_of))]
pub(crate) fn date_tree(
    alloc: Global,
    place: usize,
    text_place: usize,
    text: &String,
) -> Result<Box<Expression>, AllocError>
    ensures { IfOk result (λ t. syntax_of t.value ≡
        filled (date_op place) (leaf text_place (day_leaf (string_bytes text.now)) ∷ [])) }
{
    let text = text.clone()?;
    let tree = Expression::Date {
        place,
        text_place,
        text,
    };
    Ok(Box::new(alloc, tree)?)
}

/// A span of days.
#[tactic(auto, unfolding(cql_tree::specs::Views::syntax_of))]
pub(crate) fn interval_tree(
    alloc: Global,
    place: usize,
    from: Bound,
    to: Bound,
) -> Result<Box<Expression>, AllocError>
    ensures { IfOk result (λ t. syntax_of t.value ≡ filled (interval_op place) (bound_of from ∷ bound_of to ∷ [])) }
{
    Ok(Box::new(alloc, Expression::Interval { place, from, to })?)
}

/// A point.
#[tactic(auto, unfolding(cql_tree::specs::Views::syntax_of))]
pub(crate) fn point_tree(
    alloc: Global,
    place: usize,
    corner: Corner,
) -> Result<Box<Expression>, AllocError>
    ensures { IfOk result (λ t. syntax_of t.value ≡ filled (point_op place) (numbers_of (corner ∷ []))) }
{
    Ok(Box::new(alloc, Expression::Point { place, corner })?)
}

/// A frame.
#[tactic(auto, unfolding(cql_tree::specs::Views::syntax_of))]
pub(crate) fn bbox_tree(
    alloc: Global,
    place: usize,
    low: Corner,
    high: Corner,
) -> Result<Box<Expression>, AllocError>
    ensures { IfOk result (λ t. syntax_of t.value ≡ filled (bbox_op place) (numbers_of (low ∷ high ∷ []))) }
{
    Ok(Box::new(alloc, Expression::Bbox { place, low, high })?)
}

/// An area: its outer ring, then those of its holes.
#[tactic(auto, unfolding(cql_tree::specs::Views::syntax_of))]
pub(crate) fn polygon_tree(
    alloc: Global,
    place: usize,
    rings: Vec<Ring>,
) -> Result<Box<Expression>, AllocError>
    ensures { IfOk result (λ t. syntax_of t.value ≡ filled (polygon_op place) (rings_of rings.items)) }
{
    Ok(Box::new(alloc, Expression::Polygon { place, rings })?)
}

/// A function of two values.
pub(crate) fn pair_tree(
    alloc: Global,
    place: usize,
    by: Pairing,
    left: Box<Expression>,
    right: Box<Expression>,
) -> Result<Box<Expression>, AllocError>
    ensures { IfOk result (λ t. syntax_of t.value ≡
        filled (pair_op place by) (syntax_of left.value ∷ syntax_of right.value ∷ [])) }
{
    match by {
        Pairing::Spatial(by) => spatial_tree(alloc, place, by, left, right),
        Pairing::Temporal(by) => temporal_tree(alloc, place, by, left, right),
    }
}

/// An end of an interval that is a text.
pub(crate) fn text_bound(place: usize, content: &String) -> Result<Bound, AllocError>
    ensures { IfOk result (λ b. bound_of b ≡ leaf place (bound_leaf (string_bytes content.now))) }
{
    let content = content.clone()?;
    Ok(Bound::Text { place, content })
}

/// An end of an interval that is a name.
pub(crate) fn name_bound(place: usize, name: &String) -> Result<Bound, AllocError>
    ensures { IfOk result (λ b. bound_of b ≡ leaf place (name_leaf (string_bytes name.now))) }
{
    let name = name.clone()?;
    Ok(Bound::Name { place, name })
}

/// A number of these digits.
pub(crate) fn number(place: usize, is_negative: bool, digits: &String) -> Result<Number, AllocError>
    ensures { IfOk result (λ n. number_of n ≡ leaf place (number_leaf is_negative (string_bytes digits.now))) }
{
    let digits = digits.clone()?;
    Ok(Number {
        place,
        is_negative,
        digits,
    })
}
