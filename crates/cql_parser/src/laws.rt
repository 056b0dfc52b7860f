//! What holds of every list of tokens.

ghost use Rattle.cql_parser.specs.Laws.{CountsOpen, HasFaultOrTree, HasOneFault, HasOneTree, HasPlacesInOrder, HasTreeOrFault};

/// Tokens have one tree.
pub fn tokens_have_one_tree()
    ensures { HasOneTree }
{}

/// Tokens are a filter or have a fault.
pub fn tree_or_fault()
    ensures { HasTreeOrFault }
{}

/// Tokens with a fault are not a filter.
pub fn fault_or_tree()
    ensures { HasFaultOrTree }
{}

/// Tokens have at most one fault.
pub fn one_fault()
    ensures { HasOneFault }
{}

/// More than 64 parentheses are open at one time exactly where some tokens in a row open over 64
/// more than they close.
pub fn open_parentheses_are_counted()
    ensures { CountsOpen }
{}

/// The places of a tree's nodes ascend in the order of reading if those of its tokens do.
pub fn places_are_in_order()
    ensures { HasPlacesInOrder }
{}
