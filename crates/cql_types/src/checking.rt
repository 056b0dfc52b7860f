//! The walk over a tree.

ghost use Rattle.std.specs.Prelude.{◌≡◌, Err, IfErr, IfOk, IsOk, OnOk};
ghost use Rattle.cad_schema.specs.Schema.{schema_of};
ghost use Rattle.cql_tree.specs.Syntax.{leaf, node, part, parts_of, none, day_leaf, or_op, and_op, not_op, compare_op, like_op, between_op, in_op, is_null_op, computed_op, casei_op, date_op, spatial_op, temporal_op};
ghost use Rattle.cql_tree.specs.Views.{syntax_of, syntaxes_of, operands_of, operations_of};
ghost use Rattle.cql_types.specs.Contract.{ForFault, IsTest, OrMemory, Judges, JudgesList, JudgesPair, JudgesParts, JudgesSteps};
ghost use Rattle.cql_types.specs.Kinds.{IsCondition, IsFault, IsLeast};
ghost use Rattle.cql_types.specs.Means.{IsFilter};
ghost use Rattle.cql_types.specs.declared.fault.Fault.{Fault};
ghost use Rattle.cql_types.specs.declared.fault.TypeFault.TheVariants.{At};

use crate::collect::one;
use crate::fault::TypeFault;
use crate::filter::Filter;
use crate::judged::{Judged, JudgedStep};
use crate::laws::{fault_or_condition, one_least_fault};
use crate::{combine, leaf, literal};
use cad_day::Relation;
use cad_schema::Collection;
use cql_lexer::{Comparison, SpatialRelation};
use cql_tree::{Expression, Operand, Tree};
use std::alloc::Global;

/// The filter of the collection that the tree spells, or the fault with the least place.
///
/// The tree's places ascend in the order of reading, so no fault has a smaller place than the returned one. Unless memory runs
/// out, there is a filter exactly if the tree is a condition.
pub fn check(alloc: Global, tree: &Tree, collection: Collection) -> Result<Filter, TypeFault>
    ensures condition { OnOk result (IsCondition (schema_of collection) (syntax_of tree.now.root)) }
    ensures filter { IfOk result (IsFilter (schema_of collection) (syntax_of tree.now.root)) }
    ensures fault { IfErr result (ForFault (IsFault (schema_of collection) (syntax_of tree.now.root))) }
    ensures least { IfErr result (ForFault (IsLeast (schema_of collection) (syntax_of tree.now.root))) }
    ensures accepted { IsCondition (schema_of collection) (syntax_of tree.now.root) → OrMemory result (IsOk result) }
    ensures refused { (f : Fault) → IsLeast (schema_of collection) (syntax_of tree.now.root) f
        → OrMemory result (result ≡ Err (At f)) }
{
    // A condition has no fault, and only one of all faults has the least place.
    fault_or_condition();
    one_least_fault();
    check_tree(alloc, tree, collection)
}

fn check_tree(alloc: Global, tree: &Tree, collection: Collection) -> Result<Filter, TypeFault>
    ensures condition { OnOk result (IsCondition (schema_of collection) (syntax_of tree.now.root)) }
    ensures filter { IfOk result (IsFilter (schema_of collection) (syntax_of tree.now.root)) }
    ensures fault { IfErr result (ForFault (IsFault (schema_of collection) (syntax_of tree.now.root))) }
    ensures least { IfErr result (ForFault (IsLeast (schema_of collection) (syntax_of tree.now.root))) }
{
    let judged = judge(alloc, &tree.root, collection)?;
    one(judged)
}

#[cycle(judges)]
fn judge(alloc: Global, tree: &Expression, collection: Collection) -> Result<Judged, TypeFault>
    ensures { Judges (schema_of collection) (syntax_of tree.now) result }
{
    match tree {
        Expression::Name { place, name } => leaf::name(*place, name, collection),
        Expression::Number(number) => leaf::number(number, collection),
        Expression::Text { place, content } => leaf::text(*place, content, collection),
        Expression::Truth { place, value } => Ok(leaf::truth(*place, *value, collection)),
        Expression::Or { first, others } => judge_or(alloc, first, others, collection),
        Expression::And { first, others } => judge_and(alloc, first, others, collection),
        Expression::Not { place, part } => judge_not(alloc, *place, part, collection),
        Expression::Compare { by, left, right } => judge_compare(
            alloc, *by, left, right, collection,
        ),
        Expression::Like { .. }
        | Expression::Between { .. }
        | Expression::In { .. }
        | Expression::IsNull { .. }
        | Expression::Spatial { .. }
        | Expression::Temporal { .. } => judge_test(alloc, tree, collection),
        Expression::Computed { first, others } => judge_computed(alloc, first, others, collection),
        Expression::Casei { place, part } => judge_casei(alloc, *place, part, collection),
        Expression::Date {
            place,
            text_place,
            text,
        } => judge_date(*place, *text_place, text, collection),
        Expression::Interval { place, from, to } => literal::interval(*place, from, to, collection),
        Expression::Point { place, corner } => literal::point(*place, corner, collection),
        Expression::Polygon { place, rings } => literal::polygon(alloc, *place, rings, collection),
        Expression::Bbox { place, low, high } => literal::bbox(*place, low, high, collection),
    }
}

// A test: LIKE, BETWEEN, IN, IS NULL, or a relation of shapes or of times.
#[cycle(judges)]
fn judge_test(alloc: Global, tree: &Expression, collection: Collection) -> Result<Judged, TypeFault>
    requires { IsTest (syntax_of tree.now) }
    ensures { Judges (schema_of collection) (syntax_of tree.now) result }
{
    match tree {
        Expression::Like {
            is_negated,
            value,
            pattern,
        } => judge_like(alloc, *is_negated, value, pattern, collection),
        Expression::Between {
            is_negated,
            value,
            low,
            high,
        } => judge_between(alloc, *is_negated, value, low, high, collection),
        Expression::In {
            is_negated,
            value,
            first,
            others,
        } => judge_in(alloc, *is_negated, value, first, others, collection),
        Expression::IsNull { is_negated, value } => {
            judge_is_null(alloc, *is_negated, value, collection)
        }
        Expression::Spatial {
            place,
            by,
            left,
            right,
        } => judge_spatial(alloc, *place, *by, left, right, collection),
        Expression::Temporal {
            place,
            by,
            left,
            right,
        } => judge_temporal(alloc, *place, *by, left, right, collection),
        _ => unreachable!(),
    }
}

// The two parts of a node. The state that waits for the next part is in a box, which keeps the walk's frames small.
#[cycle(judges)]
fn judge_pair(
    alloc: Global,
    left: &Expression,
    right: &Expression,
    collection: Collection,
) -> Result<(Judged, Judged), TypeFault>
    ensures { JudgesPair (schema_of collection) (syntax_of left.now) (syntax_of right.now) result }
{
    let left = Box::new(alloc, judge(alloc, left, collection)?)?;
    let right = judge(alloc, right, collection)?;
    Ok((Box::into_inner(left), right))
}

// The first part of a list, and the others.
#[cycle(judges)]
fn judge_list(
    alloc: Global,
    first: &Expression,
    others: &[Expression],
    collection: Collection,
) -> Result<(Judged, Vec<Judged>), TypeFault>
    ensures { JudgesList (schema_of collection) (syntax_of first.now) (parts_of (syntaxes_of others.now)) result }
{
    let first = Box::new(alloc, judge(alloc, first, collection)?)?;
    let others = judge_all(alloc, others, collection)?;
    Ok((Box::into_inner(first), others))
}

#[cycle(judges)]
fn judge_or(
    alloc: Global,
    first: &Expression,
    others: &[Expression],
    collection: Collection,
) -> Result<Judged, TypeFault>
    ensures { Judges (schema_of collection) (node or_op (part (syntax_of first.now) (parts_of (syntaxes_of others.now)))) result }
{
    let (first, others) = judge_list(alloc, first, others, collection)?;
    combine::or(alloc, first, others)
}

#[cycle(judges)]
fn judge_and(
    alloc: Global,
    first: &Expression,
    others: &[Expression],
    collection: Collection,
) -> Result<Judged, TypeFault>
    ensures { Judges (schema_of collection) (node and_op (part (syntax_of first.now) (parts_of (syntaxes_of others.now)))) result }
{
    let (first, others) = judge_list(alloc, first, others, collection)?;
    combine::and(alloc, first, others)
}

#[cycle(judges)]
fn judge_not(
    alloc: Global,
    place: usize,
    operand: &Expression,
    collection: Collection,
) -> Result<Judged, TypeFault>
    ensures { Judges (schema_of collection) (node (not_op place) (part (syntax_of operand.now) none)) result }
{
    let operand = judge(alloc, operand, collection)?;
    combine::not(alloc, place, operand)
}

#[cycle(judges)]
fn judge_compare(
    alloc: Global,
    by: Comparison,
    left: &Expression,
    right: &Expression,
    collection: Collection,
) -> Result<Judged, TypeFault>
    ensures { Judges (schema_of collection) (node (compare_op by) (part (syntax_of left.now) (part (syntax_of right.now) none))) result }
{
    let (left, right) = judge_pair(alloc, left, right, collection)?;
    combine::compare(by, left, right)
}

#[cycle(judges)]
fn judge_like(
    alloc: Global,
    is_negated: bool,
    value: &Expression,
    pattern: &Expression,
    collection: Collection,
) -> Result<Judged, TypeFault>
    ensures { Judges (schema_of collection) (node (like_op is_negated) (part (syntax_of value.now) (part (syntax_of pattern.now) none))) result }
{
    let (value, pattern) = judge_pair(alloc, value, pattern, collection)?;
    combine::like(alloc, is_negated, value, pattern)
}

#[cycle(judges)]
fn judge_between(
    alloc: Global,
    is_negated: bool,
    value: &Expression,
    low: &Expression,
    high: &Expression,
    collection: Collection,
) -> Result<Judged, TypeFault>
    ensures { Judges (schema_of collection) (node (between_op is_negated) (part (syntax_of value.now) (part (syntax_of low.now) (part (syntax_of high.now) none)))) result }
{
    let value = Box::new(alloc, judge(alloc, value, collection)?)?;
    let (low, high) = judge_pair(alloc, low, high, collection)?;
    combine::between(alloc, is_negated, Box::into_inner(value), low, high)
}

#[cycle(judges)]
fn judge_in(
    alloc: Global,
    is_negated: bool,
    value: &Expression,
    first: &Expression,
    others: &[Expression],
    collection: Collection,
) -> Result<Judged, TypeFault>
    ensures { Judges (schema_of collection) (node (in_op is_negated) (part (syntax_of value.now) (part (syntax_of first.now) (parts_of (syntaxes_of others.now))))) result }
{
    let value = Box::new(alloc, judge(alloc, value, collection)?)?;
    let (first, others) = judge_list(alloc, first, others, collection)?;
    combine::is_in(alloc, is_negated, Box::into_inner(value), first, others)
}

#[cycle(judges)]
fn judge_is_null(
    alloc: Global,
    is_negated: bool,
    value: &Expression,
    collection: Collection,
) -> Result<Judged, TypeFault>
    ensures { Judges (schema_of collection) (node (is_null_op is_negated) (part (syntax_of value.now) none)) result }
{
    let value = judge(alloc, value, collection)?;
    combine::is_null(alloc, is_negated, value)
}

#[cycle(judges)]
fn judge_computed(
    alloc: Global,
    first: &Expression,
    others: &[Operand],
    collection: Collection,
) -> Result<Judged, TypeFault>
    ensures { Judges (schema_of collection) (node (computed_op (operations_of others.now)) (part (syntax_of first.now) (parts_of (operands_of others.now)))) result }
{
    let first = Box::new(alloc, judge(alloc, first, collection)?)?;
    let steps = judge_steps(alloc, others, collection)?;
    combine::computed(alloc, Box::into_inner(first), steps)
}

#[cycle(judges)]
fn judge_casei(
    alloc: Global,
    place: usize,
    operand: &Expression,
    collection: Collection,
) -> Result<Judged, TypeFault>
    ensures { Judges (schema_of collection) (node (casei_op place) (part (syntax_of operand.now) none)) result }
{
    let operand = judge(alloc, operand, collection)?;
    combine::casei(alloc, place, operand)
}

fn judge_date(
    place: usize,
    text_place: usize,
    text: &str,
    collection: Collection,
) -> Result<Judged, TypeFault>
    ensures { Judges (schema_of collection) (node (date_op place) (part (leaf text_place (day_leaf text.now)) none)) result }
{
    let part = leaf::day(text_place, text, collection)?;
    combine::date(place, part)
}

#[cycle(judges)]
fn judge_spatial(
    alloc: Global,
    place: usize,
    by: SpatialRelation,
    left: &Expression,
    right: &Expression,
    collection: Collection,
) -> Result<Judged, TypeFault>
    ensures { Judges (schema_of collection) (node (spatial_op place by) (part (syntax_of left.now) (part (syntax_of right.now) none))) result }
{
    let (left, right) = judge_pair(alloc, left, right, collection)?;
    combine::spatial(place, by, left, right)
}

#[cycle(judges)]
fn judge_temporal(
    alloc: Global,
    place: usize,
    by: Relation,
    left: &Expression,
    right: &Expression,
    collection: Collection,
) -> Result<Judged, TypeFault>
    ensures { Judges (schema_of collection) (node (temporal_op place by) (part (syntax_of left.now) (part (syntax_of right.now) none))) result }
{
    let (left, right) = judge_pair(alloc, left, right, collection)?;
    combine::temporal(place, by, left, right)
}

#[cycle(judges)]
fn judge_all(
    alloc: Global,
    trees: &[Expression],
    collection: Collection,
) -> Result<Vec<Judged>, TypeFault>
    ensures { JudgesParts (schema_of collection) (parts_of (syntaxes_of trees.now)) result }
{
    let mut all = Vec::new(alloc);
    for tree in trees {
        all.push(judge(alloc, tree, collection)?)?;
    }
    Ok(all)
}

#[cycle(judges)]
fn judge_steps(
    alloc: Global,
    operands: &[Operand],
    collection: Collection,
) -> Result<Vec<JudgedStep>, TypeFault>
    ensures { JudgesSteps (schema_of collection) (parts_of (operands_of operands.now)) (operations_of operands.now) result }
{
    let mut steps = Vec::new(alloc);
    for operand in operands {
        let part = judge(alloc, &operand.tree, collection)?;
        let by = operand.by;
        steps.push(JudgedStep { by, part })?;
    }
    Ok(steps)
}
