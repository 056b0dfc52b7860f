//! The three readings of a text, one after the other.

ghost use Rattle.std.specs.Prelude.{◌≡◌, Err, IsOk};
ghost use Rattle.cad_schema.specs.Schema.{schema_of};
ghost use Rattle.cql_filter.specs.Answer.{Answers, OrMemory};
ghost use Rattle.cql_filter.specs.Filters.{IsAccepted, IsFirstFault};
ghost use Rattle.cql_filter.specs.declared.cause.Cause.{Cause};
ghost use Rattle.cql_filter.specs.declared.cause.FilterFault.TheVariants.{Refused};

use crate::cause::FilterFault;
use crate::laws::{fault_or_filter, one_first_fault};
use cad_schema::Collection;
use cql_lexer::tokens;
use cql_parser::parse;
use cql_types::laws::filters_are_of_conditions;
use cql_types::{Filter, check};
use std::alloc::Global;

/// The filter of the collection that a text spells, or the first fault of the text.
///
/// The spelling is checked first, then how many parentheses are open at one time, then the grammar, and at last the kinds. Of the
/// faults of kinds the one with the least place is returned.
pub fn read(alloc: Global, text: &str, collection: Collection) -> Result<Filter, FilterFault>
    ensures answer { Answers (schema_of collection) text.now result }
    ensures accepted { IsAccepted (schema_of collection) text.now → OrMemory result (IsOk result) }
    ensures refused { (cause : Cause) → IsFirstFault (schema_of collection) text.now cause
        → OrMemory result (result ≡ Err (Refused cause)) }
{
    // A text that has a fault is not a filter, and has no other fault.
    fault_or_filter();
    one_first_fault();
    read_filter(alloc, text, collection)
}

fn read_filter(alloc: Global, text: &str, collection: Collection) -> Result<Filter, FilterFault>
    ensures { Answers (schema_of collection) text.now result }
{
    filters_are_of_conditions();
    let tokens = tokens(alloc, text)?;
    let parsed = parse(alloc, &tokens);
    drop(tokens);
    let tree = parsed?;
    let checked = check(alloc, &tree, collection);
    drop(tree);
    let filter = checked?;
    Ok(filter)
}
