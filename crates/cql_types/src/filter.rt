//! Filters whose kinds fit. A term of one kind cannot hold another.

use cad_day::{Day, Relation};
use cad_shape::Shape;
use cql_lexer::{Comparison, SpatialRelation};
use cql_tree::Operation;

/// A whole number of 64 bits, or none. A property is named by its place in the schema.
#[derive(Drop)]
#[cycle(whole)]
pub enum WholeTerm {
    /// A number of the filter.
    Constant(i64),
    /// The value of a property.
    Property(usize),
    /// A sum or a product, computed from the left.
    Computed {
        /// The first part.
        first: Box<WholeTerm>,
        /// What is done then, from the left.
        steps: Vec<Step>,
    },
}

/// A part of a sum or a product behind the first, and what is done with it.
#[derive(Drop)]
#[cycle(whole)]
pub struct Step {
    /// What is done with it.
    pub by: Operation,
    /// The part.
    pub term: WholeTerm,
}

/// A text.
#[derive(Drop)]
pub enum TextTerm {
    /// A text of the filter.
    Constant(String),
    /// The value of a property.
    Property(usize),
    /// Its case folded.
    Folded(Box<TextTerm>),
}

/// A day.
#[derive(Drop)]
pub enum DayTerm {
    /// A day of the filter.
    Constant(Day),
    /// The value of a property.
    Property(usize),
}

/// True or false.
#[derive(Drop)]
pub enum FlagTerm {
    /// TRUE or FALSE.
    Constant(bool),
    /// The value of a property.
    Property(usize),
}

/// An end of an interval.
#[derive(Drop)]
pub enum EndTerm {
    /// No end on this side.
    Open,
    /// The end is this day, which is included.
    Day(DayTerm),
}

/// Days from one to another.
#[derive(Drop)]
pub enum SpanTerm {
    /// A day, as the interval of that day.
    Day(DayTerm),
    /// The value of a property.
    Property(usize),
    /// The days from one end to the other.
    Interval { from: EndTerm, to: EndTerm },
}

/// A point, a box or a region.
#[derive(Drop)]
pub enum ShapeTerm {
    /// A shape of the filter.
    Constant(Shape),
    /// The value of a property.
    Property(usize),
}

/// A term of any kind.
#[derive(Drop)]
pub enum AnyTerm {
    /// A whole number.
    Whole(WholeTerm),
    /// A text.
    Text(TextTerm),
    /// A day.
    Day(DayTerm),
    /// True or false.
    Flag(FlagTerm),
    /// An interval.
    Span(SpanTerm),
    /// A shape.
    Shape(ShapeTerm),
}

/// A condition that a feature meets, does not meet, or neither.
#[derive(Drop)]
pub enum Filter {
    /// TRUE or FALSE.
    Truth(bool),
    /// Two numbers, by their size.
    CompareWhole {
        /// How the sides are compared.
        by: Comparison,
        /// The side before the sign.
        left: WholeTerm,
        /// The side behind it.
        right: WholeTerm,
    },
    /// Two texts, in the order of code points.
    CompareText {
        /// How the sides are compared.
        by: Comparison,
        /// The side before the sign.
        left: TextTerm,
        /// The side behind it.
        right: TextTerm,
    },
    /// Two days, by their order in time.
    CompareDay {
        /// How the sides are compared.
        by: Comparison,
        /// The side before the sign.
        left: DayTerm,
        /// The side behind it.
        right: DayTerm,
    },
    /// Two flags, only by equality.
    CompareFlag {
        /// How the sides are compared: only by equality.
        by: Comparison,
        /// The side before the sign.
        left: FlagTerm,
        /// The side behind it.
        right: FlagTerm,
    },
    /// The text is like the pattern.
    Like {
        /// What is to be like the pattern.
        value: TextTerm,
        /// The pattern.
        pattern: TextTerm,
    },
    /// The value is neither below the one nor above the other.
    Between {
        /// What is to lie between the bounds.
        value: WholeTerm,
        /// The lower bound, included.
        low: WholeTerm,
        /// The upper bound, included.
        high: WholeTerm,
    },
    /// The value equals one of the numbers.
    InWhole {
        /// What is to be one of the items.
        value: WholeTerm,
        /// The items.
        items: Vec<WholeTerm>,
    },
    /// The value equals one of the texts.
    InText {
        /// What is to be one of the items.
        value: TextTerm,
        /// The items.
        items: Vec<TextTerm>,
    },
    /// The value equals one of the days.
    InDay {
        /// What is to be one of the items.
        value: DayTerm,
        /// The items.
        items: Vec<DayTerm>,
    },
    /// The value equals one of the flags.
    InFlag {
        /// What is to be one of the items.
        value: FlagTerm,
        /// The items.
        items: Vec<FlagTerm>,
    },
    /// The term has no value.
    IsNull(AnyTerm),
    /// How two shapes lie to each other.
    Spatial {
        /// The relation that is asked for.
        by: SpatialRelation,
        /// The first argument.
        left: ShapeTerm,
        /// The second argument.
        right: ShapeTerm,
    },
    /// How two intervals lie to each other.
    Temporal {
        /// The relation that is asked for.
        by: Relation,
        /// The first argument.
        left: SpanTerm,
        /// The second argument.
        right: SpanTerm,
    },
    /// The condition is false.
    Not(Box<Filter>),
    /// All of these are true.
    And(Vec<Filter>),
    /// At least one of these is true.
    Or(Vec<Filter>),
}
