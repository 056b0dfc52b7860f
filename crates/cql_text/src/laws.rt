//! Laws of patterns, case folding and the order of texts, each proved for the definitions that the contracts cite.
//! Nothing runs here.

ghost use Rattle.cql_text.specs.Laws.{LikeTestTells, PlainPatternsAreEqual, AnyNumberTakesAll, FoldedTextsStay, OneTextIsEqual, OrderIsTotal};

/// A pattern without `%`, `_` and `\` matches only the same text.
pub fn plain_patterns_are_equal()
    ensures { PlainPatternsAreEqual }
{}

/// The test that decides whether a text is like a pattern is true exactly if the relation holds.
pub fn like_test_tells()
    ensures { LikeTestTells }
{}

/// Every text is like the pattern `%`.
pub fn any_number_takes_all()
    ensures { AnyNumberTakesAll }
{}

/// Folding a folded text leaves it as it is.
pub fn folded_texts_stay()
    ensures { FoldedTextsStay }
{}

/// The order of two texts is Equal exactly if they are the same text.
pub fn one_text_is_equal()
    ensures { OneTextIsEqual }
{}

/// The order of texts is total: it is reflexive and transitive, and exchanged texts are ordered the other way.
pub fn order_is_total()
    ensures { OrderIsTotal }
{}
