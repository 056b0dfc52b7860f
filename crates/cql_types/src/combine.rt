//! Nodes from their parts, each of which has a kind.
//!
//! A part is converted to a term, or dropped by a call, before a fault is returned. If it were left to its scope, it would be taken
//! apart there, variant by variant down to the least part, and the proof would do the same.

ghost use Rattle.std.specs.Prelude.{◌≡◌, [], ◌∷◌, Some, Bool, IfOk, IfErr, false};
ghost use Rattle.cql_tree.specs.Syntax.{or_op, and_op, not_op, compare_op, like_op, between_op, in_op, is_null_op, computed_op, casei_op, date_op, spatial_op, temporal_op};
ghost use Rattle.cql_types.specs.Kinds as kinds;
ghost use Rattle.cql_types.specs.Kinds.{is_equality, is_pattern, is_related, misfit};
ghost use Rattle.cql_types.specs.Means.{Makes, kind_of, marks_of, pattern_of, IsNegatedIf};
ghost use Rattle.cql_types.specs.Contract.{Combines, ForFault, CombinesFlags, CombinesTexts, parts_judged, operations_judged};
ghost use Rattle.cql_types.specs.declared.judged.Node.TheVariants as n;
ghost use Rattle.cql_types.specs.declared.fault.TypeFault.TheVariants.{At};

use crate::collect::{collect_steps, gather, one, wrong_kind};
use crate::fault::TypeFault;
use crate::filter::{AnyTerm, Filter, FlagTerm, ShapeTerm, SpanTerm, TextTerm, WholeTerm};
use crate::judged::{Judged, JudgedStep, Node};
use cad_day::Relation;
use cql_lexer::{Comparison, SpatialRelation};
use std::alloc::{AllocError, Global};

fn condition(place: usize, filter: Filter) -> Judged
    ensures { result ≡ record { place = place; node = n.Condition filter } }
{
    Judged {
        place,
        node: Node::Condition(filter),
    }
}

// The filter, or its negation if the node has a NOT.
fn negated_if(alloc: Global, is_negated: bool, filter: Filter) -> Result<Filter, AllocError>
    ensures { IfOk result (IsNegatedIf filter is_negated) }
{
    if is_negated {
        Ok(Filter::Not(Box::new(alloc, filter)?))
    } else {
        Ok(filter)
    }
}

/// Conditions joined by OR.
pub(crate) fn or(alloc: Global, first: Judged, others: Vec<Judged>) -> Result<Judged, TypeFault>
    ensures { Combines or_op (first ∷ others.items) result }
{
    let place = first.place;
    Ok(condition(place, Filter::Or(gather(alloc, first, others)?)))
}

/// Conditions joined by AND.
pub(crate) fn and(alloc: Global, first: Judged, others: Vec<Judged>) -> Result<Judged, TypeFault>
    ensures { Combines and_op (first ∷ others.items) result }
{
    let place = first.place;
    Ok(condition(place, Filter::And(gather(alloc, first, others)?)))
}

/// The condition behind a NOT.
pub(crate) fn not(alloc: Global, place: usize, part: Judged) -> Result<Judged, TypeFault>
    ensures { Combines (not_op place) (part ∷ []) result }
{
    let filter: Filter = one(part)?;
    Ok(condition(place, Filter::Not(Box::new(alloc, filter)?)))
}

fn tests_equality(by: Comparison) -> bool
    ensures { result ≡ is_equality by }
{
    matches!(by, Comparison::Equal | Comparison::Unequal)
}

/// Two values compared.
pub(crate) fn compare(by: Comparison, left: Judged, right: Judged) -> Result<Judged, TypeFault>
    ensures { Combines (compare_op by) (left ∷ right ∷ []) result }
{
    let Judged { place, node } = left;
    match node {
        Node::Whole(left) => {
            let right = one(right)?;
            Ok(condition(place, Filter::CompareWhole { by, left, right }))
        }
        Node::Text(left) => compare_text(by, place, left, right),
        Node::Pattern(left) => compare_text(by, place, left, right),
        Node::Day(left) => {
            let right = one(right)?;
            Ok(condition(place, Filter::CompareDay { by, left, right }))
        }
        Node::Flag(left) => compare_flag(by, place, left, right),
        Node::Truth(value) => compare_flag(by, place, FlagTerm::Constant(value), right),
        other => {
            drop(other);
            drop(right);
            Err(wrong_kind(place))
        }
    }
}

fn compare_text(
    by: Comparison,
    place: usize,
    left: TextTerm,
    right: Judged,
) -> Result<Judged, TypeFault>
    ensures { CombinesTexts by place left right result }
{
    let right = one(right)?;
    Ok(condition(place, Filter::CompareText { by, left, right }))
}

fn compare_flag(
    by: Comparison,
    place: usize,
    left: FlagTerm,
    right: Judged,
) -> Result<Judged, TypeFault>
    ensures { CombinesFlags by place left right result }
{
    let right = one(right);
    if !tests_equality(by) {
        return Err(wrong_kind(place));
    }
    let right = right?;
    Ok(condition(place, Filter::CompareFlag { by, left, right }))
}

/// `[NOT] LIKE`
pub(crate) fn like(
    alloc: Global,
    is_negated: bool,
    left: Judged,
    right: Judged,
) -> Result<Judged, TypeFault>
    ensures { Combines (like_op is_negated) (left ∷ right ∷ []) result }
{
    let place = left.place;
    let pattern = one_pattern(right);
    let value: TextTerm = one(left)?;
    let pattern = pattern?;
    let filter = negated_if(alloc, is_negated, Filter::Like { value, pattern })?;
    Ok(condition(place, filter))
}

// The text literal, or CASEI around one, that comes behind LIKE.
fn one_pattern(part: Judged) -> Result<TextTerm, TypeFault>
    ensures ok { IfOk result (λ x. pattern_of part.node ≡ Some x) }
    ensures err { IfErr result (λ e. (e ≡ At (kinds.wrong_kind part.place)) × (is_pattern (kind_of part.node) ≡ false)) }
{
    let Judged { place, node } = part;
    match node {
        Node::Pattern(pattern) => Ok(pattern),
        other => {
            drop(other);
            Err(wrong_kind(place))
        }
    }
}

/// `[NOT] BETWEEN`
pub(crate) fn between(
    alloc: Global,
    is_negated: bool,
    value: Judged,
    low: Judged,
    high: Judged,
) -> Result<Judged, TypeFault>
    ensures { Combines (between_op is_negated) (value ∷ low ∷ high ∷ []) result }
{
    let place = value.place;
    let (low, high) = (one(low), one(high));
    let value: WholeTerm = one(value)?;
    let low: WholeTerm = low?;
    let high: WholeTerm = high?;
    let filter = negated_if(alloc, is_negated, Filter::Between { value, low, high })?;
    Ok(condition(place, filter))
}

/// `[NOT] IN`
pub(crate) fn is_in(
    alloc: Global,
    is_negated: bool,
    value: Judged,
    first: Judged,
    others: Vec<Judged>,
) -> Result<Judged, TypeFault>
    ensures { Combines (in_op is_negated) (value ∷ first ∷ others.items) result }
{
    let place = value.place;
    let filter = one_of(alloc, value, first, others)?;
    let filter = negated_if(alloc, is_negated, filter)?;
    Ok(condition(place, filter))
}

// The value is one of the items, all of its kind.
fn one_of(
    alloc: Global,
    value: Judged,
    first: Judged,
    others: Vec<Judged>,
) -> Result<Filter, TypeFault>
    ensures ok { IfOk result (λ is_one. (is_negated : Bool) (filter : Filter) → IsNegatedIf is_one is_negated filter
        → Makes (in_op is_negated) (value ∷ first ∷ others.items) (n.Condition filter)) }
    ensures err { IfErr result (ForFault (λ fault. misfit (in_op false) (marks_of (value ∷ first ∷ others.items)) ≡ Some fault)) }
{
    let Judged { place, node } = value;
    match node {
        Node::Whole(value) => {
            let items = gather(alloc, first, others)?;
            Ok(Filter::InWhole { value, items })
        }
        Node::Text(value) | Node::Pattern(value) => {
            let items = gather(alloc, first, others)?;
            Ok(Filter::InText { value, items })
        }
        Node::Day(value) => {
            let items = gather(alloc, first, others)?;
            Ok(Filter::InDay { value, items })
        }
        Node::Flag(value) => {
            let items = gather(alloc, first, others)?;
            Ok(Filter::InFlag { value, items })
        }
        Node::Truth(value) => {
            let value = FlagTerm::Constant(value);
            let items = gather(alloc, first, others)?;
            Ok(Filter::InFlag { value, items })
        }
        other => {
            drop(other);
            drop(first);
            Err(wrong_kind(place))
        }
    }
}

/// `IS [NOT] NULL`
pub(crate) fn is_null(alloc: Global, is_negated: bool, value: Judged) -> Result<Judged, TypeFault>
    ensures { Combines (is_null_op is_negated) (value ∷ []) result }
{
    let place = value.place;
    let value: AnyTerm = one(value)?;
    let filter = negated_if(alloc, is_negated, Filter::IsNull(value))?;
    Ok(condition(place, filter))
}

/// A sum or a product, from its parts and the operation before each part behind the first.
pub(crate) fn computed(
    alloc: Global,
    first: Judged,
    steps: Vec<JudgedStep>,
) -> Result<Judged, TypeFault>
    ensures { Combines (computed_op (operations_judged steps.items)) (first ∷ parts_judged steps.items) result }
{
    let place = first.place;
    let first: WholeTerm = one(first)?;
    let first = Box::new(alloc, first)?;
    let steps = collect_steps(alloc, steps)?;
    let node = Node::Whole(WholeTerm::Computed { first, steps });
    Ok(Judged { place, node })
}

/// `CASEI`
pub(crate) fn casei(alloc: Global, place: usize, part: Judged) -> Result<Judged, TypeFault>
    ensures { Combines (casei_op place) (part ∷ []) result }
{
    let Judged { place: first, node } = part;
    match node {
        Node::Text(term) => {
            let node = Node::Text(TextTerm::Folded(Box::new(alloc, term)?));
            Ok(Judged { place, node })
        }
        Node::Pattern(term) => {
            let node = Node::Pattern(TextTerm::Folded(Box::new(alloc, term)?));
            Ok(Judged { place, node })
        }
        other => {
            drop(other);
            Err(wrong_kind(first))
        }
    }
}

/// `DATE`
pub(crate) fn date(place: usize, part: Judged) -> Result<Judged, TypeFault>
    ensures { Combines (date_op place) (part ∷ []) result }
{
    let node = Node::Day(one(part)?);
    Ok(Judged { place, node })
}

// Whether the second shape fits the first: if one is to lie within the other, the inner is a point or the outer is a box.
fn are_related(by: SpatialRelation, left: &Node, right: &Node) -> bool
    ensures { result ≡ is_related by (kind_of left.now) (kind_of right.now) }
{
    match by {
        SpatialRelation::Intersects | SpatialRelation::Disjoint => is_shape(right),
        SpatialRelation::Within => {
            if is_spot(left) {
                is_shape(right)
            } else {
                is_frame(right)
            }
        }
        SpatialRelation::Contains => {
            if is_frame(left) {
                is_shape(right)
            } else {
                is_spot(right)
            }
        }
    }
}

fn is_shape(node: &Node) -> bool
    ensures { result ≡ kinds.is_shape (kind_of node.now) }
{
    matches!(node, Node::Spot(_) | Node::Area(_) | Node::Frame(_))
}

fn is_spot(node: &Node) -> bool
    ensures { result ≡ kinds.is_spot (kind_of node.now) }
{
    matches!(node, Node::Spot(_))
}

fn is_frame(node: &Node) -> bool
    ensures { result ≡ kinds.is_frame (kind_of node.now) }
{
    matches!(node, Node::Frame(_))
}

/// One of the functions whose names begin with `S_`.
pub(crate) fn spatial(
    place: usize,
    by: SpatialRelation,
    left: Judged,
    right: Judged,
) -> Result<Judged, TypeFault>
    ensures { Combines (spatial_op place by) (left ∷ right ∷ []) result }
{
    let second = right.place;
    let related = are_related(by, &left.node, &right.node);
    let right = one(right);
    let left: ShapeTerm = one(left)?;
    if !related {
        return Err(wrong_kind(second));
    }
    let right: ShapeTerm = right?;
    Ok(condition(place, Filter::Spatial { by, left, right }))
}

/// One of the functions whose names begin with `T_`.
pub(crate) fn temporal(
    place: usize,
    by: Relation,
    left: Judged,
    right: Judged,
) -> Result<Judged, TypeFault>
    ensures { Combines (temporal_op place by) (left ∷ right ∷ []) result }
{
    let right = one(right);
    let left: SpanTerm = one(left)?;
    let right: SpanTerm = right?;
    Ok(condition(place, Filter::Temporal { by, left, right }))
}
