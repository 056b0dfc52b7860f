//! Which bare names are keywords.

ghost use Rattle.std.specs.Prelude.{◌≡◌, map};
ghost use Rattle.std.specs.Str.{str_eq_ignore_ascii_case};
ghost use Rattle.cql_lexer.specs.Names.{keyword_of};
ghost use Rattle.cql_lexer.specs.Tables.{entry_of};

use crate::token::{Keyword, SpatialRelation};
use cad_day::Relation;

const KEYWORDS: [(&[u8], Keyword); 36] = [
    (b"AND", Keyword::And),
    (b"OR", Keyword::Or),
    (b"NOT", Keyword::Not),
    (b"LIKE", Keyword::Like),
    (b"BETWEEN", Keyword::Between),
    (b"IN", Keyword::In),
    (b"IS", Keyword::Is),
    (b"NULL", Keyword::Null),
    (b"TRUE", Keyword::True),
    (b"FALSE", Keyword::False),
    (b"DIV", Keyword::Div),
    (b"CASEI", Keyword::Casei),
    (b"DATE", Keyword::Date),
    (b"INTERVAL", Keyword::Interval),
    (b"POINT", Keyword::Point),
    (b"POLYGON", Keyword::Polygon),
    (b"BBOX", Keyword::Bbox),
    (
        b"S_INTERSECTS",
        Keyword::Spatial(SpatialRelation::Intersects),
    ),
    (b"S_DISJOINT", Keyword::Spatial(SpatialRelation::Disjoint)),
    (b"S_WITHIN", Keyword::Spatial(SpatialRelation::Within)),
    (b"S_CONTAINS", Keyword::Spatial(SpatialRelation::Contains)),
    (b"T_AFTER", Keyword::Temporal(Relation::After)),
    (b"T_BEFORE", Keyword::Temporal(Relation::Before)),
    (b"T_DISJOINT", Keyword::Temporal(Relation::Disjoint)),
    (b"T_INTERSECTS", Keyword::Temporal(Relation::Intersects)),
    (b"T_EQUALS", Keyword::Temporal(Relation::Equals)),
    (b"T_CONTAINS", Keyword::Temporal(Relation::Contains)),
    (b"T_DURING", Keyword::Temporal(Relation::During)),
    (b"T_MEETS", Keyword::Temporal(Relation::Meets)),
    (b"T_METBY", Keyword::Temporal(Relation::MetBy)),
    (b"T_STARTS", Keyword::Temporal(Relation::Starts)),
    (b"T_STARTEDBY", Keyword::Temporal(Relation::StartedBy)),
    (b"T_FINISHES", Keyword::Temporal(Relation::Finishes)),
    (b"T_FINISHEDBY", Keyword::Temporal(Relation::FinishedBy)),
    (b"T_OVERLAPS", Keyword::Temporal(Relation::Overlaps)),
    (b"T_OVERLAPPEDBY", Keyword::Temporal(Relation::OverlappedBy)),
];

/// The keyword that a bare name is, in upper case, lower case or both.
#[tactic(auto, unfolding(crate::specs::Names::keyword_of))]
pub(crate) fn keyword_in_any_case(spelling: &[u8]) -> Option<Keyword>
    ensures { result ≡ keyword_of spelling.now }
{
    find_keyword(&KEYWORDS, spelling)
}

fn find_keyword(table: &[(&[u8], Keyword)], spelling: &[u8]) -> Option<Keyword>
    ensures { result
        ≡ entry_of str_eq_ignore_ascii_case (map (λ entry. (entry.0.now, entry.1)) table.now)
        spelling.now }
{
    let mut entries = table;
    while let [entry, others @ ..] = entries {
        if is_same_word(spelling, entry.0) {
            return Some(entry.1);
        }
        entries = others;
    }
    None
}

fn is_same_word(spelling: &[u8], word: &[u8]) -> bool
    ensures { result ≡ str_eq_ignore_ascii_case spelling.now word.now }
{
    spelling.eq_ignore_ascii_case(word)
}
