//! Names and literals, each read from the front of the tokens.

ghost use Rattle.std.specs.Prelude.{◌≡◌, ◌<◌, [], length, IfOk, MatchResult};
ghost use Rattle.cql_lexer.specs.Mark.{marks};
ghost use Rattle.cql_tree.specs.Syntax.{date_op, interval_op, point_op, bbox_op};
ghost use Rattle.cql_parser.specs.Machine.{ForPrimary, as_primary, run, want_primary, want_slots, after_sign, have_primary, date_slots, interval_slots, point_slots, bbox_slots};
ghost use Rattle.cql_tree.specs.Views.{ring_of};
ghost use Rattle.cql_parser.specs.inner.Starts.{IsNoCall};
ghost use Rattle.cql_parser.specs.inner.Descent.{Parses, IsStopped, want_ring, want_rings};

use crate::lookahead::{after_close, after_comma};
use crate::node::{
    bbox_tree, date_tree, interval_tree, name_tree, number_tree, point_tree, polygon_tree,
    text_tree, truth_tree,
};
use crate::slot::{
    pass_close, pass_comma, pass_open, take_bound, take_corner, take_digits, take_pair, take_text,
};
use crate::start::{LiteralStart, literal_start};
use crate::stop::{Parsed, Stop};
use cql_lexer::Token;
use cql_tree::Ring;
use std::alloc::Global;

/// Reads a name, or a literal. Parentheses and functions of expressions are read elsewhere.
pub(crate) fn parse_literal<'a>(alloc: Global, tokens: &'a [Token]) -> Result<Parsed<'a>, Stop<'a>>
    ensures parses { IsNoCall (marks tokens.now) → Parses want_primary have_primary (marks tokens.now) result }
    ensures shorter { IfOk result (λ r. length r.rest.now < length tokens.now) }
{
    match literal_start(tokens) {
        LiteralStart::Name(place, name, rest) => {
            let tree = name_tree(alloc, place, name)?;
            Ok(Parsed { tree, rest })
        }
        LiteralStart::Text(place, content, rest) => {
            let tree = text_tree(alloc, place, content)?;
            Ok(Parsed { tree, rest })
        }
        LiteralStart::Truth(place, value, rest) => {
            let tree = truth_tree(alloc, place, value)?;
            Ok(Parsed { tree, rest })
        }
        LiteralStart::Number(_, _, _) => parse_digits(alloc, false, tokens),
        LiteralStart::Sign(is_negative, after) => parse_digits(alloc, is_negative, after),
        LiteralStart::Date(place, after) => parse_date(alloc, place, after),
        LiteralStart::Interval(place, after) => parse_interval(alloc, place, after),
        LiteralStart::Point(place, after) => parse_point(alloc, place, after),
        LiteralStart::Polygon(place, after) => parse_polygon(alloc, place, after),
        LiteralStart::Bbox(place, after) => parse_bbox(alloc, place, after),
        LiteralStart::NoLiteral => Err(Stop::At(tokens)),
    }
}

// whole, behind its sign
fn parse_digits<'a>(
    alloc: Global,
    is_negative: bool,
    tokens: &'a [Token],
) -> Result<Parsed<'a>, Stop<'a>>
    ensures parses { Parses (λ k. after_sign is_negative (as_primary k)) have_primary (marks tokens.now) result }
    ensures shorter { IfOk result (λ r. length r.rest.now < length tokens.now) }
{
    let (number, rest) = take_digits(is_negative, tokens)?;
    let tree = number_tree(alloc, number)?;
    Ok(Parsed { tree, rest })
}

// DATE "(" text ")"
fn parse_date<'a>(alloc: Global, place: usize, tokens: &'a [Token]) -> Result<Parsed<'a>, Stop<'a>>
    ensures parses { Parses (want_slots date_slots (date_op place) []) have_primary (marks tokens.now) result }
    ensures shorter { IfOk result (λ r. length r.rest.now < length tokens.now) }
{
    let after = pass_open(tokens)?;
    let (text_place, text, after) = take_text(after)?;
    let rest = pass_close(after)?;
    let tree = date_tree(alloc, place, text_place, text)?;
    Ok(Parsed { tree, rest })
}

// INTERVAL "(" bound "," bound ")"
fn parse_interval<'a>(
    alloc: Global,
    place: usize,
    tokens: &'a [Token],
) -> Result<Parsed<'a>, Stop<'a>>
    ensures parses { Parses (want_slots interval_slots (interval_op place) []) have_primary (marks tokens.now) result }
    ensures shorter { IfOk result (λ r. length r.rest.now < length tokens.now) }
{
    let after = pass_open(tokens)?;
    let (from, after) = take_bound(after)?;
    let after = pass_comma(after)?;
    let (to, after) = take_bound(after)?;
    let rest = pass_close(after)?;
    let tree = interval_tree(alloc, place, from, to)?;
    Ok(Parsed { tree, rest })
}

// POINT "(" whole whole ")"
fn parse_point<'a>(alloc: Global, place: usize, tokens: &'a [Token]) -> Result<Parsed<'a>, Stop<'a>>
    ensures parses { Parses (want_slots point_slots (point_op place) []) have_primary (marks tokens.now) result }
    ensures shorter { IfOk result (λ r. length r.rest.now < length tokens.now) }
{
    let after = pass_open(tokens)?;
    let (corner, after) = take_corner(after)?;
    let rest = pass_close(after)?;
    let tree = point_tree(alloc, place, corner)?;
    Ok(Parsed { tree, rest })
}

// POLYGON "(" ring { "," ring } ")"
fn parse_polygon<'a>(
    alloc: Global,
    place: usize,
    tokens: &'a [Token],
) -> Result<Parsed<'a>, Stop<'a>>
    ensures parses { Parses (want_rings place) have_primary (marks tokens.now) result }
    ensures shorter { IfOk result (λ r. length r.rest.now < length tokens.now) }
{
    let after = pass_open(tokens)?;
    let (first, mut rest) = parse_ring(alloc, after)?;
    let mut rings = Vec::new(alloc);
    rings.push(first)?;
    while let Some(after) = after_comma(rest) {
        let (ring, left) = parse_ring(alloc, after)?;
        rings.push(ring)?;
        rest = left;
    }
    let Some(after) = after_close(rest) else {
        return Err(Stop::At(rest));
    };
    let tree = polygon_tree(alloc, place, rings)?;
    Ok(Parsed { tree, rest: after })
}

// ring = "(" whole whole { "," whole whole } ")"
fn parse_ring(alloc: Global, tokens: &[Token]) -> Result<(Ring, &[Token]), Stop<'_>>
    ensures parses { MatchResult result
        (λ r. (k : ForPrimary) → run (want_ring k) (marks tokens.now) ≡
        run (have_primary k (ring_of r.0)) (marks r.1.now))
        (IsStopped want_ring (marks tokens.now)) }
    ensures shorter { IfOk result (λ r. length r.1.now < length tokens.now) }
{
    let after = pass_open(tokens)?;
    let (first, mut rest) = take_corner(after)?;
    let mut corners = Vec::new(alloc);
    corners.push(first)?;
    while let Some(after) = after_comma(rest) {
        let (corner, left) = take_corner(after)?;
        corners.push(corner)?;
        rest = left;
    }
    match after_close(rest) {
        Some(after) => Ok((Ring { corners }, after)),
        None => Err(Stop::At(rest)),
    }
}

// BBOX "(" whole "," whole "," whole "," whole ")"
fn parse_bbox<'a>(alloc: Global, place: usize, tokens: &'a [Token]) -> Result<Parsed<'a>, Stop<'a>>
    ensures parses { Parses (want_slots bbox_slots (bbox_op place) []) have_primary (marks tokens.now) result }
    ensures shorter { IfOk result (λ r. length r.rest.now < length tokens.now) }
{
    let after = pass_open(tokens)?;
    let (low, after) = take_pair(after)?;
    let after = pass_comma(after)?;
    let (high, after) = take_pair(after)?;
    let rest = pass_close(after)?;
    let tree = bbox_tree(alloc, place, low, high)?;
    Ok(Parsed { tree, rest })
}
