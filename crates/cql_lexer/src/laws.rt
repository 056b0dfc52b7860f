//! What holds of every spelling.

ghost use Rattle.cql_lexer.specs.Laws.{HasFaultOrTokens, HasOneFault, HasOneSpelling, HasPlacesInOrder, HasTokensAtPlaces, HasTokensOrFault};

/// A text has one list of tokens.
pub fn one_spelling()
    ensures { HasOneSpelling }
{}

/// Each token begins within the text, behind the one before it.
pub fn places_in_order()
    ensures { HasPlacesInOrder }
{}

/// Each token is the longest that the text spells at its place.
pub fn tokens_at_places()
    ensures { HasTokensAtPlaces }
{}

/// Each text has tokens within the limits, or a fault.
pub fn tokens_or_fault()
    ensures { HasTokensOrFault }
{}

/// A text with a fault has no tokens within the limits.
pub fn fault_or_tokens()
    ensures { HasFaultOrTokens }
{}

/// A text has at most one fault.
pub fn one_fault()
    ensures { HasOneFault }
{}
