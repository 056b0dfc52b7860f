//! The rules of the grammar, each read from the front of the tokens.

ghost use Rattle.std.specs.Prelude.{◌<◌, ◌≤◌, [], ◌∷◌, length, IfOk};
ghost use Rattle.cql_lexer.specs.Mark.{marks};
ghost use Rattle.cql_tree.specs.Syntax.{casei_op};
ghost use Rattle.cql_parser.specs.Machine.{left, right, pattern, low, in_paren, open_slot, sum_slot, close_sign, two_sums, want_or, want_and, want_not, want_predicate, want_sum, want_product, want_primary, want_slot, want_slots, want_null, after_in, after_is, have_or, have_and, have_not, have_predicate, have_sum, have_product, have_primary};
ghost use Rattle.cql_parser.specs.inner.Starts.{pair_op};
ghost use Rattle.cql_tree.specs.Views.{syntax_of};
ghost use Rattle.cql_parser.specs.inner.Descent.{Parses, ParsesAll};

use crate::literal::parse_literal;
use crate::lookahead::{
    after_addition, after_and, after_close, after_comma, after_multiplication, after_not,
    after_null, after_open, after_or,
};
use crate::node::{
    and_tree, between_tree, casei_tree, compare_tree, computed_tree, in_tree, like_tree, not_tree,
    null_tree, or_tree, pair_tree,
};
use crate::slot::{pass_close, pass_comma, pass_open};
use crate::start::{CallStart, Pairing, TailStart, call_start, tail_start};
use crate::stop::{Parsed, Stop};
use cql_lexer::{Comparison, Token};
use cql_tree::{Expression, Operand};
use std::alloc::Global;

/// Reads a whole filter: `or`, and nothing after it.
pub(crate) fn parse_filter<'a>(
    alloc: Global,
    tokens: &'a [Token],
) -> Result<Box<Expression>, Stop<'a>>
    ensures { ParsesAll (marks tokens.now) result }
{
    let Parsed { tree, rest } = parse_or(alloc, tokens)?;
    if rest.is_empty() {
        Ok(tree)
    } else {
        Err(Stop::At(rest))
    }
}

// or = and { OR and }
#[cycle(rules)]
fn parse_or<'a>(alloc: Global, tokens: &'a [Token]) -> Result<Parsed<'a>, Stop<'a>>
    ensures parses { Parses want_or have_or (marks tokens.now) result }
    ensures shorter { IfOk result (λ r. length r.rest.now < length tokens.now) }
{
    let Parsed {
        tree: first,
        mut rest,
    } = parse_and(alloc, tokens)?;
    let mut others = Vec::new(alloc);
    while let Some(after) = after_or(rest) {
        let next = parse_and(alloc, after)?;
        rest = next.rest;
        others.push(Box::into_inner(next.tree))?;
    }
    let tree = or_tree(alloc, first, others)?;
    Ok(Parsed { tree, rest })
}

// and = not { AND not }
#[cycle(rules)]
fn parse_and<'a>(alloc: Global, tokens: &'a [Token]) -> Result<Parsed<'a>, Stop<'a>>
    ensures parses { Parses want_and have_and (marks tokens.now) result }
    ensures shorter { IfOk result (λ r. length r.rest.now < length tokens.now) }
{
    let Parsed {
        tree: first,
        mut rest,
    } = parse_not(alloc, tokens)?;
    let mut others = Vec::new(alloc);
    while let Some(after) = after_and(rest) {
        let next = parse_not(alloc, after)?;
        rest = next.rest;
        others.push(Box::into_inner(next.tree))?;
    }
    let tree = and_tree(alloc, first, others)?;
    Ok(Parsed { tree, rest })
}

// not = [ NOT ] predicate
#[cycle(rules)]
fn parse_not<'a>(alloc: Global, tokens: &'a [Token]) -> Result<Parsed<'a>, Stop<'a>>
    ensures parses { Parses want_not have_not (marks tokens.now) result }
    ensures shorter { IfOk result (λ r. length r.rest.now < length tokens.now) }
{
    match after_not(tokens) {
        Some((place, after)) => {
            let Parsed { tree: part, rest } = parse_predicate(alloc, after)?;
            let tree = not_tree(alloc, place, part)?;
            Ok(Parsed { tree, rest })
        }
        None => parse_predicate(alloc, tokens),
    }
}

// predicate = sum [ tail ]
#[cycle(rules)]
fn parse_predicate<'a>(alloc: Global, tokens: &'a [Token]) -> Result<Parsed<'a>, Stop<'a>>
    ensures parses { Parses want_predicate have_predicate (marks tokens.now) result }
    ensures shorter { IfOk result (λ r. length r.rest.now < length tokens.now) }
{
    let Parsed { tree, rest } = parse_sum(alloc, tokens)?;
    parse_tail(alloc, tree, rest)
}

// what may follow a value
#[cycle(rules)]
fn parse_tail<'a>(
    alloc: Global,
    value: Box<Expression>,
    tokens: &'a [Token],
) -> Result<Parsed<'a>, Stop<'a>>
    ensures parses { Parses (λ k. have_sum (left k) (syntax_of value.value)) have_predicate (marks tokens.now) result }
    ensures no_longer { IfOk result (λ r. length r.rest.now ≤ length tokens.now) }
{
    match tail_start(tokens) {
        TailStart::Compared(by, after) => parse_right(alloc, by, value, after),
        TailStart::Liked(is_negated, after) => parse_pattern(alloc, is_negated, value, after),
        TailStart::Ranged(is_negated, after) => parse_range(alloc, is_negated, value, after),
        TailStart::Listed(is_negated, after) => parse_items(alloc, is_negated, value, after),
        TailStart::Tested(after) => parse_is(alloc, value, after),
        TailStart::Broken(rest) => Err(Stop::At(rest)),
        TailStart::NoTail => Ok(Parsed {
            tree: value,
            rest: tokens,
        }),
    }
}

// sum, behind a comparison
#[cycle(rules)]
fn parse_right<'a>(
    alloc: Global,
    by: Comparison,
    value: Box<Expression>,
    tokens: &'a [Token],
) -> Result<Parsed<'a>, Stop<'a>>
    ensures parses { Parses (λ k. want_sum (right by (syntax_of value.value) k)) have_predicate
        (marks tokens.now) result }
    ensures shorter { IfOk result (λ r. length r.rest.now < length tokens.now) }
{
    let Parsed { tree: other, rest } = parse_sum(alloc, tokens)?;
    let tree = compare_tree(alloc, by, value, other)?;
    Ok(Parsed { tree, rest })
}

// sum, behind LIKE
#[cycle(rules)]
fn parse_pattern<'a>(
    alloc: Global,
    is_negated: bool,
    value: Box<Expression>,
    tokens: &'a [Token],
) -> Result<Parsed<'a>, Stop<'a>>
    ensures parses { Parses (λ k. want_sum (pattern is_negated (syntax_of value.value) k)) have_predicate
        (marks tokens.now) result }
    ensures shorter { IfOk result (λ r. length r.rest.now < length tokens.now) }
{
    let Parsed { tree: other, rest } = parse_sum(alloc, tokens)?;
    let tree = like_tree(alloc, is_negated, value, other)?;
    Ok(Parsed { tree, rest })
}

// sum AND sum, behind BETWEEN
#[cycle(rules)]
fn parse_range<'a>(
    alloc: Global,
    is_negated: bool,
    value: Box<Expression>,
    tokens: &'a [Token],
) -> Result<Parsed<'a>, Stop<'a>>
    ensures parses { Parses (λ k. want_sum (low is_negated (syntax_of value.value) k)) have_predicate
        (marks tokens.now) result }
    ensures shorter { IfOk result (λ r. length r.rest.now < length tokens.now) }
{
    let Parsed { tree: low, rest } = parse_sum(alloc, tokens)?;
    let Some(after) = after_and(rest) else {
        return Err(Stop::At(rest));
    };
    let Parsed { tree: high, rest } = parse_sum(alloc, after)?;
    let tree = between_tree(alloc, is_negated, value, low, high)?;
    Ok(Parsed { tree, rest })
}

// "(" sum { "," sum } ")", behind IN
#[cycle(rules)]
fn parse_items<'a>(
    alloc: Global,
    is_negated: bool,
    value: Box<Expression>,
    tokens: &'a [Token],
) -> Result<Parsed<'a>, Stop<'a>>
    ensures parses { Parses (after_in is_negated (syntax_of value.value)) have_predicate (marks tokens.now) result }
    ensures shorter { IfOk result (λ r. length r.rest.now < length tokens.now) }
{
    let Some(after) = after_open(tokens) else {
        return Err(Stop::At(tokens));
    };
    let Parsed {
        tree: first,
        mut rest,
    } = parse_sum(alloc, after)?;
    let mut others = Vec::new(alloc);
    while let Some(after) = after_comma(rest) {
        let next = parse_sum(alloc, after)?;
        rest = next.rest;
        others.push(Box::into_inner(next.tree))?;
    }
    let Some(after) = after_close(rest) else {
        return Err(Stop::At(rest));
    };
    let tree = in_tree(alloc, is_negated, value, first, others)?;
    Ok(Parsed { tree, rest: after })
}

// [ NOT ] NULL, behind IS
fn parse_is<'a>(
    alloc: Global,
    value: Box<Expression>,
    tokens: &'a [Token],
) -> Result<Parsed<'a>, Stop<'a>>
    ensures parses { Parses (after_is (syntax_of value.value)) have_predicate (marks tokens.now) result }
    ensures shorter { IfOk result (λ r. length r.rest.now < length tokens.now) }
{
    match after_not(tokens) {
        Some((_, after)) => parse_null(alloc, true, value, after),
        None => parse_null(alloc, false, value, tokens),
    }
}

// NULL
fn parse_null<'a>(
    alloc: Global,
    is_negated: bool,
    value: Box<Expression>,
    tokens: &'a [Token],
) -> Result<Parsed<'a>, Stop<'a>>
    ensures parses { Parses (want_null is_negated (syntax_of value.value)) have_predicate (marks tokens.now) result }
    ensures shorter { IfOk result (λ r. length r.rest.now < length tokens.now) }
{
    match after_null(tokens) {
        Some(rest) => {
            let tree = null_tree(alloc, is_negated, value)?;
            Ok(Parsed { tree, rest })
        }
        None => Err(Stop::At(tokens)),
    }
}

// sum = product { ( + | - ) product }
#[cycle(rules)]
fn parse_sum<'a>(alloc: Global, tokens: &'a [Token]) -> Result<Parsed<'a>, Stop<'a>>
    ensures parses { Parses want_sum have_sum (marks tokens.now) result }
    ensures shorter { IfOk result (λ r. length r.rest.now < length tokens.now) }
{
    let Parsed {
        tree: first,
        mut rest,
    } = parse_product(alloc, tokens)?;
    let mut others = Vec::new(alloc);
    while let Some((by, after)) = after_addition(rest) {
        let next = parse_product(alloc, after)?;
        rest = next.rest;
        let tree = Box::into_inner(next.tree);
        others.push(Operand { by, tree })?;
    }
    let tree = computed_tree(alloc, first, others)?;
    Ok(Parsed { tree, rest })
}

// product = primary { ( * | DIV | % ) primary }
#[cycle(rules)]
fn parse_product<'a>(alloc: Global, tokens: &'a [Token]) -> Result<Parsed<'a>, Stop<'a>>
    ensures parses { Parses want_product have_product (marks tokens.now) result }
    ensures shorter { IfOk result (λ r. length r.rest.now < length tokens.now) }
{
    let Parsed {
        tree: first,
        mut rest,
    } = parse_primary(alloc, tokens)?;
    let mut others = Vec::new(alloc);
    while let Some((by, after)) = after_multiplication(rest) {
        let next = parse_primary(alloc, after)?;
        rest = next.rest;
        let tree = Box::into_inner(next.tree);
        others.push(Operand { by, tree })?;
    }
    let tree = computed_tree(alloc, first, others)?;
    Ok(Parsed { tree, rest })
}

// primary
#[cycle(rules)]
fn parse_primary<'a>(alloc: Global, tokens: &'a [Token]) -> Result<Parsed<'a>, Stop<'a>>
    ensures parses { Parses want_primary have_primary (marks tokens.now) result }
    ensures shorter { IfOk result (λ r. length r.rest.now < length tokens.now) }
{
    match call_start(tokens) {
        CallStart::Paren(after) => parse_paren(alloc, after),
        CallStart::Folded(place, after) => parse_casei(alloc, place, after),
        CallStart::Paired(place, by, after) => parse_pair(alloc, place, by, after),
        CallStart::NoCall => parse_literal(alloc, tokens),
    }
}

// or ")"
#[cycle(rules)]
fn parse_paren<'a>(alloc: Global, tokens: &'a [Token]) -> Result<Parsed<'a>, Stop<'a>>
    ensures parses { Parses (λ k. want_or (in_paren k)) have_primary (marks tokens.now) result }
    ensures shorter { IfOk result (λ r. length r.rest.now < length tokens.now) }
{
    let Parsed { tree, rest } = parse_or(alloc, tokens)?;
    match after_close(rest) {
        Some(after) => Ok(Parsed { tree, rest: after }),
        None => Err(Stop::At(rest)),
    }
}

// "(" sum ")", behind CASEI
#[cycle(rules)]
fn parse_casei<'a>(alloc: Global, place: usize, tokens: &'a [Token]) -> Result<Parsed<'a>, Stop<'a>>
    ensures parses { Parses (want_slot open_slot (sum_slot close_sign ∷ []) (casei_op place) []) have_primary
        (marks tokens.now) result }
    ensures shorter { IfOk result (λ r. length r.rest.now < length tokens.now) }
{
    let after = pass_open(tokens)?;
    let Parsed { tree: part, rest } = parse_sum(alloc, after)?;
    let rest = pass_close(rest)?;
    let tree = casei_tree(alloc, place, part)?;
    Ok(Parsed { tree, rest })
}

// "(" sum "," sum ")", behind the name of a function of two values
#[cycle(rules)]
fn parse_pair<'a>(
    alloc: Global,
    place: usize,
    by: Pairing,
    tokens: &'a [Token],
) -> Result<Parsed<'a>, Stop<'a>>
    ensures parses { Parses (want_slots two_sums (pair_op place by) []) have_primary (marks tokens.now) result }
    ensures shorter { IfOk result (λ r. length r.rest.now < length tokens.now) }
{
    let after = pass_open(tokens)?;
    let Parsed { tree: left, rest } = parse_sum(alloc, after)?;
    let after = pass_comma(rest)?;
    let Parsed { tree: right, rest } = parse_sum(alloc, after)?;
    let rest = pass_close(rest)?;
    let tree = pair_tree(alloc, place, by, left, right)?;
    Ok(Parsed { tree, rest })
}
