//! The tokens of the filter language.

ghost use Rattle.cql_lexer.specs.Mark.{marks};
ghost use Rattle.cql_lexer.specs.Order.{Ascend, ascend_prop};

use cad_day::Relation;

/// How two values are compared.
#[derive(Clone, Copy, PartialEq, Eq, Debug)]
pub enum Comparison {
    /// `=`
    Equal,
    /// `<>`
    Unequal,
    /// `<`
    Less,
    /// `>`
    Greater,
    /// `<=`
    AtMost,
    /// `>=`
    AtLeast,
}

/// How two shapes are compared.
#[derive(Clone, Copy, PartialEq, Eq, Debug)]
pub enum SpatialRelation {
    /// `S_INTERSECTS`
    Intersects,
    /// `S_DISJOINT`
    Disjoint,
    /// `S_WITHIN`
    Within,
    /// `S_CONTAINS`
    Contains,
}

/// A word that is not a name, in upper case, lower case or both.
#[derive(Clone, Copy, PartialEq, Eq, Debug)]
pub enum Keyword {
    /// `AND`
    And,
    /// `OR`
    Or,
    /// `NOT`
    Not,
    /// `LIKE`
    Like,
    /// `BETWEEN`
    Between,
    /// `IN`
    In,
    /// `IS`
    Is,
    /// `NULL`
    Null,
    /// `TRUE`
    True,
    /// `FALSE`
    False,
    /// `DIV`
    Div,
    /// `CASEI`
    Casei,
    /// `DATE`
    Date,
    /// `INTERVAL`
    Interval,
    /// `POINT`
    Point,
    /// `POLYGON`
    Polygon,
    /// `BBOX`
    Bbox,
    /// One of the four names that begin with `S_`.
    Spatial(SpatialRelation),
    /// One of the fifteen names that begin with `T_`.
    Temporal(Relation),
}

/// What a token is.
#[derive(Debug, Drop)]
pub enum Kind {
    /// `(`
    Open,
    /// `)`
    Close,
    /// `,`
    Comma,
    /// `+`
    Plus,
    /// `-`
    Minus,
    /// `*`
    Times,
    /// `%`
    Modulo,
    /// `=`, `<>`, `<`, `>`, `<=` or `>=`
    Compare(Comparison),
    /// A keyword.
    Word(Keyword),
    /// A name as it is written, without the quotes of a quoted one.
    Name(String),
    /// The content of a text: without its quotes, and with each `''` and `\'` inside as one quote.
    Text(String),
    /// A number as it is written, without a sign: digits, and a fraction and an exponent if it has them.
    Number(String),
}

/// A token, and the byte of the text at which it begins.
#[derive(Debug, Drop)]
pub struct Token {
    /// The byte of the text at which it begins.
    pub place: usize,
    /// The token itself.
    pub kind: Kind,
}

/// The tokens of a text, and the text's length in bytes.
#[derive(Debug, Drop)]
pub struct Tokens {
    /// The tokens, in the order of the text.
    pub list: Vec<Token>,
    /// The length of the text in bytes.
    pub end: usize,
    /// Each token begins behind the one before it.
    pub ghost ordered: { Ascend 0 (marks list.items) } by { ascend_prop 0 (marks list.items) },
}
