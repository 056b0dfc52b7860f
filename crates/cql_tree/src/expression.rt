//! The nodes of a tree.

use cad_day::Relation;
use cql_lexer::{Comparison, SpatialRelation};

/// A filter, or a part of one. Parentheses leave no node, and a list of one part is that part.
/// A place is the byte of the text at which a token begins.
#[derive(Drop)]
#[cycle(tree)]
pub enum Expression {
    /// A property's name.
    Name {
        /// The byte at which it begins.
        place: usize,
        /// The name, without quotes.
        name: String,
    },
    /// A number with its sign.
    Number(Number),
    /// A text.
    Text {
        /// The byte at which it begins.
        place: usize,
        /// The content of the text.
        content: String,
    },
    /// TRUE or FALSE.
    Truth {
        /// The byte at which it begins.
        place: usize,
        /// Whether it is TRUE.
        value: bool,
    },
    /// Two parts or more, joined by OR.
    Or {
        /// The first part.
        first: Box<Expression>,
        /// The further parts, one at least.
        others: Vec<Expression>,
    },
    /// Two parts or more, joined by AND.
    And {
        /// The first part.
        first: Box<Expression>,
        /// The further parts, one at least.
        others: Vec<Expression>,
    },
    /// The part behind a NOT.
    Not {
        /// The byte at which NOT begins.
        place: usize,
        /// What is negated.
        part: Box<Expression>,
    },
    /// Two values compared.
    Compare {
        /// How the sides are compared.
        by: Comparison,
        /// The side before the sign.
        left: Box<Expression>,
        /// The side behind it.
        right: Box<Expression>,
    },
    /// `[NOT] LIKE`
    Like {
        /// Whether NOT comes before LIKE.
        is_negated: bool,
        /// What is to be like the pattern.
        value: Box<Expression>,
        /// The pattern.
        pattern: Box<Expression>,
    },
    /// `[NOT] BETWEEN`, with both ends.
    Between {
        /// Whether NOT comes before BETWEEN.
        is_negated: bool,
        /// What is to lie between the bounds.
        value: Box<Expression>,
        /// The lower bound.
        low: Box<Expression>,
        /// The upper bound.
        high: Box<Expression>,
    },
    /// `[NOT] IN`, with one item or more.
    In {
        /// Whether NOT comes before IN.
        is_negated: bool,
        /// What is to be one of the items.
        value: Box<Expression>,
        /// The first item.
        first: Box<Expression>,
        /// The further items.
        others: Vec<Expression>,
    },
    /// `IS [NOT] NULL`
    IsNull {
        /// Whether NOT comes behind IS.
        is_negated: bool,
        /// What is to have no value.
        value: Box<Expression>,
    },
    /// Two parts or more, computed from the left.
    Computed {
        /// The first part.
        first: Box<Expression>,
        /// The further parts and what is done with each, one at least.
        others: Vec<Operand>,
    },
    /// `CASEI(..)`
    Casei {
        /// The byte at which the word begins.
        place: usize,
        /// What is folded.
        part: Box<Expression>,
    },
    /// `DATE('..')`: the place of the keyword, and the text with its own place.
    Date {
        /// The byte at which the word begins.
        place: usize,
        /// The byte at which the text in it begins.
        text_place: usize,
        /// The text that has to name a day.
        text: String,
    },
    /// `INTERVAL(.., ..)`
    Interval {
        /// The byte at which the word begins.
        place: usize,
        /// The first end.
        from: Bound,
        /// The last end.
        to: Bound,
    },
    /// `POINT(x y)`
    Point {
        /// The byte at which the word begins.
        place: usize,
        /// Its coordinates.
        corner: Corner,
    },
    /// `POLYGON((x y, ..), ..)`: its outer ring, then those of its holes.
    Polygon {
        /// The byte at which the word begins.
        place: usize,
        /// The outline, and then the holes.
        rings: Vec<Ring>,
    },
    /// `BBOX(x, y, x, y)`: the least corner, then the greatest.
    Bbox {
        /// The byte at which the word begins.
        place: usize,
        /// The least x and y.
        low: Corner,
        /// The greatest x and y.
        high: Corner,
    },
    /// One of the functions whose names begin with `S_`.
    Spatial {
        /// The byte at which the function's name begins.
        place: usize,
        /// The relation that is asked for.
        by: SpatialRelation,
        /// The first argument.
        left: Box<Expression>,
        /// The second argument.
        right: Box<Expression>,
    },
    /// One of the functions whose names begin with `T_`.
    Temporal {
        /// The byte at which the function's name begins.
        place: usize,
        /// The relation that is asked for.
        by: Relation,
        /// The first argument.
        left: Box<Expression>,
        /// The second argument.
        right: Box<Expression>,
    },
}

/// A number as it is written.
#[derive(Drop)]
pub struct Number {
    /// The place of its digits, behind the sign.
    pub place: usize,
    /// Whether a minus comes before it.
    pub is_negative: bool,
    /// Digits, and a fraction and an exponent if it has them.
    pub digits: String,
}

/// What is done with the next part of a sum or a product.
#[derive(Clone, Copy, PartialEq, Eq, Debug)]
pub enum Operation {
    /// `+`
    Plus,
    /// `-`
    Minus,
    /// `*`
    Times,
    /// `DIV`, cut toward zero
    Div,
    /// `%`, the remainder of `DIV`
    Modulo,
}

/// A part of a sum or a product behind the first, and what is done with it.
#[derive(Drop)]
#[cycle(tree)]
pub struct Operand {
    /// What is done with it.
    pub by: Operation,
    /// The part.
    pub tree: Expression,
}

/// An end of INTERVAL.
#[derive(Drop)]
pub enum Bound {
    /// A text: a day, or `..` for an open end.
    Text { place: usize, content: String },
    /// A property's name.
    Name { place: usize, name: String },
}

/// A point of a literal.
#[derive(Drop)]
pub struct Corner {
    /// The first number.
    pub x: Number,
    /// The second number.
    pub y: Number,
}

/// A closed line through its corners.
#[derive(Drop)]
pub struct Ring {
    /// The corners as they are written, the first one repeated at the end.
    pub corners: Vec<Corner>,
}
