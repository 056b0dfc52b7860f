//! What the first token begins.

ghost use Rattle.std.specs.Prelude.{length, ◌<◌};
ghost use Rattle.cql_lexer.specs.Mark.{marks};
ghost use Rattle.cql_parser.specs.inner.Starts.{StartsTail, StartsNegated, IsShorterTail, StartsCall, IsShorterCall, StartsLiteral, IsShorterLiteral};

use cad_day::Relation;
use cql_lexer::{Comparison, Keyword, Kind, SpatialRelation, Token};

/// What may follow a value, and the tokens behind its words.
#[derive(Clone, Copy)]
pub enum TailStart<'a> {
    /// A comparison by this sign.
    Compared(Comparison, &'a [Token]),
    /// LIKE, and whether a NOT comes before it.
    Liked(bool, &'a [Token]),
    /// BETWEEN, and whether a NOT comes before it.
    Ranged(bool, &'a [Token]),
    /// IN, and whether a NOT comes before it.
    Listed(bool, &'a [Token]),
    /// IS.
    Tested(&'a [Token]),
    /// A NOT that is followed by nothing that may follow it; the tokens are those behind it.
    Broken(&'a [Token]),
    /// None of these.
    NoTail,
}

/// A function of two values.
#[derive(Clone, Copy)]
pub enum Pairing {
    /// A relation of two shapes.
    Spatial(SpatialRelation),
    /// A relation of two intervals.
    Temporal(Relation),
}

/// What opens a parenthesis around other expressions, and the tokens behind its word.
#[derive(Clone, Copy)]
pub enum CallStart<'a> {
    /// The parenthesis itself, without a word.
    Paren(&'a [Token]),
    /// CASEI, and the place of the word.
    Folded(usize, &'a [Token]),
    /// A function of two values, with the place of its word.
    Paired(usize, Pairing, &'a [Token]),
    /// None of these.
    NoCall,
}

/// What begins a name or a literal, and the tokens behind its first one.
#[derive(Clone, Copy)]
pub enum LiteralStart<'a> {
    /// A name, at this place.
    Name(usize, &'a String, &'a [Token]),
    /// A text and what it says, at this place.
    Text(usize, &'a String, &'a [Token]),
    /// TRUE or FALSE: the place of the word, and whether it is TRUE.
    Truth(usize, bool, &'a [Token]),
    /// A number without a sign, as it is written, at this place.
    Number(usize, &'a String, &'a [Token]),
    /// Whether the sign is a minus.
    Sign(bool, &'a [Token]),
    /// DATE, and the place of the word.
    Date(usize, &'a [Token]),
    /// INTERVAL, and the place of the word.
    Interval(usize, &'a [Token]),
    /// POINT, and the place of the word.
    Point(usize, &'a [Token]),
    /// POLYGON, and the place of the word.
    Polygon(usize, &'a [Token]),
    /// BBOX, and the place of the word.
    Bbox(usize, &'a [Token]),
    /// None of these.
    NoLiteral,
}

/// What may follow a value.
pub(crate) fn tail_start(tokens: &[Token]) -> TailStart<'_>
    ensures starts { StartsTail result (marks tokens.now) }
    ensures shorter { IsShorterTail (length tokens.now) result }
{
    let Some((first, rest)) = tokens.split_first() else {
        return TailStart::NoTail;
    };
    match first.kind {
        Kind::Compare(by) => TailStart::Compared(by, rest),
        Kind::Word(Keyword::Like) => TailStart::Liked(false, rest),
        Kind::Word(Keyword::Between) => TailStart::Ranged(false, rest),
        Kind::Word(Keyword::In) => TailStart::Listed(false, rest),
        Kind::Word(Keyword::Is) => TailStart::Tested(rest),
        Kind::Word(Keyword::Not) => negated_start(rest),
        _ => TailStart::NoTail,
    }
}

/// What may follow a tail's NOT.
fn negated_start(tokens: &[Token]) -> TailStart<'_>
    ensures starts { StartsNegated result (marks tokens.now) }
    ensures shorter { IsShorterTail (length tokens.now) result }
{
    let Some((first, rest)) = tokens.split_first() else {
        return TailStart::Broken(tokens);
    };
    match first.kind {
        Kind::Word(Keyword::Like) => TailStart::Liked(true, rest),
        Kind::Word(Keyword::Between) => TailStart::Ranged(true, rest),
        Kind::Word(Keyword::In) => TailStart::Listed(true, rest),
        _ => TailStart::Broken(tokens),
    }
}

/// What opens a parenthesis around other expressions.
pub(crate) fn call_start(tokens: &[Token]) -> CallStart<'_>
    ensures starts { StartsCall result (marks tokens.now) }
    ensures shorter { IsShorterCall (length tokens.now) result }
{
    let Some((first, rest)) = tokens.split_first() else {
        return CallStart::NoCall;
    };
    match first.kind {
        Kind::Open => CallStart::Paren(rest),
        Kind::Word(Keyword::Casei) => CallStart::Folded(first.place, rest),
        Kind::Word(Keyword::Spatial(by)) => {
            CallStart::Paired(first.place, Pairing::Spatial(by), rest)
        }
        Kind::Word(Keyword::Temporal(by)) => {
            CallStart::Paired(first.place, Pairing::Temporal(by), rest)
        }
        _ => CallStart::NoCall,
    }
}

/// What begins a name or a literal.
pub(crate) fn literal_start(tokens: &[Token]) -> LiteralStart<'_>
    ensures starts { StartsLiteral result (marks tokens.now) }
    ensures shorter { IsShorterLiteral (length tokens.now) result }
{
    let Some((first, rest)) = tokens.split_first() else {
        return LiteralStart::NoLiteral;
    };
    match &first.kind {
        Kind::Name(name) => LiteralStart::Name(first.place, name, rest),
        Kind::Text(content) => LiteralStart::Text(first.place, content, rest),
        Kind::Number(digits) => LiteralStart::Number(first.place, digits, rest),
        Kind::Plus => LiteralStart::Sign(false, rest),
        Kind::Minus => LiteralStart::Sign(true, rest),
        Kind::Word(Keyword::True) => LiteralStart::Truth(first.place, true, rest),
        Kind::Word(Keyword::False) => LiteralStart::Truth(first.place, false, rest),
        Kind::Word(Keyword::Date) => LiteralStart::Date(first.place, rest),
        Kind::Word(Keyword::Interval) => LiteralStart::Interval(first.place, rest),
        Kind::Word(Keyword::Point) => LiteralStart::Point(first.place, rest),
        Kind::Word(Keyword::Polygon) => LiteralStart::Polygon(first.place, rest),
        Kind::Word(Keyword::Bbox) => LiteralStart::Bbox(first.place, rest),
        _ => LiteralStart::NoLiteral,
    }
}
