//! What a tree is, once it is judged.

use crate::filter::{DayTerm, Filter, FlagTerm, ShapeTerm, SpanTerm, TextTerm, WholeTerm};
use cql_tree::Operation;

/// A tree whose kind fits. TRUE and FALSE are of two kinds.
#[derive(Drop)]
pub enum Node {
    /// A whole number.
    Whole(WholeTerm),
    /// A text that is not a literal.
    Text(TextTerm),
    /// A text literal, or CASEI around one.
    Pattern(TextTerm),
    /// A day.
    Day(DayTerm),
    /// A property that is true or false.
    Flag(FlagTerm),
    /// TRUE or FALSE: a flag, and a condition.
    Truth(bool),
    /// An interval.
    Span(SpanTerm),
    /// A point.
    Spot(ShapeTerm),
    /// A region.
    Area(ShapeTerm),
    /// A box.
    Frame(ShapeTerm),
    /// A condition.
    Condition(Filter),
}

/// What a tree is, and its place.
#[derive(Drop)]
pub struct Judged {
    /// The byte of the text at which it begins.
    pub place: usize,
    /// What it is, of its kind.
    pub node: Node,
}

/// A part of a sum or a product behind the first, and what is done with it.
#[derive(Drop)]
pub struct JudgedStep {
    /// What is done with it.
    pub by: Operation,
    /// The part.
    pub part: Judged,
}
