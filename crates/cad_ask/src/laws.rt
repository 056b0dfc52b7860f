//! What holds of every query. Nothing runs here.

ghost use Rattle.cad_ask.specs.Laws.{HasFaultOrAsks, HasOneFirstFault, NextAsksTheSame, PairsAskOneThing, TheFirstIsTheLeast};

use cad_parameters::laws::continued_goes_on;
use cql_filter::laws as filters;

/// The pairs of a query have at most one first fault.
pub fn one_first_fault()
    ensures { HasOneFirstFault }
{
    filters::fault_or_filter();
    filters::one_first_fault();
}

/// The first fault is the one with the lowest number among the faults of the pairs.
pub fn the_first_is_the_least()
    ensures { TheFirstIsTheLeast }
{
    filters::fault_or_filter();
    filters::filter_or_fault();
}

/// Pairs with a fault ask for nothing.
pub fn fault_or_asks()
    ensures { HasFaultOrAsks }
{
    filters::fault_or_filter();
}

/// The pairs of the next page ask for the same, at the page's revision and after its last feature.
pub fn next_asks_the_same()
    ensures { NextAsksTheSame }
{
    continued_goes_on();
}

/// The pairs of a query ask at most one thing.
pub fn pairs_ask_one_thing()
    ensures { PairsAskOneThing }
{
    filters::text_has_one_filter();
}
