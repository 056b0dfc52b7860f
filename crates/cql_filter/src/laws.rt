//! What holds of every text.

ghost use Rattle.cql_filter.specs.Laws.{HasFaultOrFilter, HasFilterOrFault, HasFiltersOfAccepted, HasOneFilter, HasOneFirstFault};

use cql_lexer::laws as lexer;
use cql_parser::laws as parser;
use cql_types::laws as types;

/// It is impossible that neither holds: a text is a filter of the collection, or has a first fault.
pub fn filter_or_fault()
    ensures { HasFilterOrFault }
{
    lexer::tokens_or_fault();
    lexer::places_in_order();
    parser::tree_or_fault();
    parser::places_are_in_order();
    types::condition_or_fault();
}

/// A text with a fault is not a filter.
pub fn fault_or_filter()
    ensures { HasFaultOrFilter }
{
    lexer::one_spelling();
    lexer::fault_or_tokens();
    parser::tokens_have_one_tree();
    parser::fault_or_tree();
    types::fault_or_condition();
}

/// A text has at most one first fault: one cause, at one place.
pub fn one_first_fault()
    ensures { HasOneFirstFault }
{
    lexer::one_spelling();
    lexer::one_fault();
    lexer::fault_or_tokens();
    lexer::places_in_order();
    parser::tokens_have_one_tree();
    parser::one_fault();
    parser::fault_or_tree();
    parser::places_are_in_order();
    types::one_least_fault();
}

/// Only a text that is accepted spells a filter.
pub fn filters_are_of_accepted_texts()
    ensures { HasFiltersOfAccepted }
{
    types::filters_are_of_conditions();
}

/// A text spells at most one filter, apart from its place in memory.
pub fn text_has_one_filter()
    ensures { HasOneFilter }
{
    lexer::one_spelling();
    parser::tokens_have_one_tree();
    types::tree_has_one_filter();
}
