//! What a query asks of a collection.

ghost use Rattle.std.specs.Prelude.{◌≡◌, map, IfOk, IsOk, Some, Err, option_copied};
ghost use Rattle.std.specs.Result.{result_err};
ghost use Rattle.cad_parameters.specs.Pairs.{pair_text, pairs_of};
ghost use Rattle.cad_parameters.specs.Parameters.{IsSelection, IsContinuation};
ghost use Rattle.cad_ask.specs.Faults.{selection_fault, continuation_fault};
ghost use Rattle.cad_ask.specs.Answers.{AnswersFilter, Answers, AsksWell, IsFirstFault, OrMemory};
ghost use Rattle.cad_ask.specs.declared.fault.AskFault.{AskFault};

use crate::fault::AskFault;
use crate::laws::{fault_or_asks, one_first_fault};
use cad_parameters::{Continuation, Pair, Selection, filter_text, read_pairs};
use cad_schema::Collection;
use cql_types::Filter;
use std::alloc::Global;

/// What a query asks of a collection.
#[derive(Drop)]
pub struct Ask {
    /// The collection whose features are asked for.
    pub collection: Collection,
    /// The parameters as they were given, for the links of the page.
    pub pairs: Vec<Pair>,
    /// How many features at most, and which days and which box they have to meet.
    pub selection: Selection,
    /// If it is `None`, all features pass.
    pub filter: Option<Filter>,
    /// Which revision is shown, and after which feature the page begins.
    pub continuation: Continuation,
}

impl Ask {
    /// What the query, the part of a target after its first `?`, asks of the collection.
    pub fn read(alloc: Global, collection: Collection, query: &str) -> Result<Ask, AskFault>
        ensures answer { Answers collection (pairs_of query.now) result }
        ensures asked { AsksWell collection (pairs_of query.now) → OrMemory result (IsOk result) }
        ensures refused { (f : AskFault) → IsFirstFault collection (pairs_of query.now) f → OrMemory result (result ≡ Err f) }
    {
        // Pairs that have a first fault ask for nothing, and have no other first fault.
        fault_or_asks();
        one_first_fault();
        read_ask(alloc, collection, query)
    }
}

fn read_ask(alloc: Global, collection: Collection, query: &str) -> Result<Ask, AskFault>
    ensures { Answers collection (pairs_of query.now) result }
{
    let pairs = read_pairs(alloc, query.as_bytes())?;
    let selection = selection(&pairs)?;
    let filter = filter(alloc, collection, filter_text(&pairs))?;
    let continuation = continuation(&pairs)?;
    Ok(Ask {
        collection,
        pairs,
        selection,
        filter,
        continuation,
    })
}

fn selection(pairs: &[Pair]) -> Result<Selection, AskFault>
    ensures fault { result_err result ≡ selection_fault (map pair_text pairs.now) }
    ensures value { IfOk result (IsSelection (map pair_text pairs.now)) }
{
    match Selection::read(pairs) {
        Ok(selection) => Ok(selection),
        Err(fault) => Err(AskFault::from(fault)),
    }
}

fn continuation(pairs: &[Pair]) -> Result<Continuation, AskFault>
    ensures fault { result_err result ≡ continuation_fault (map pair_text pairs.now) }
    ensures value { IfOk result (IsContinuation (map pair_text pairs.now)) }
{
    match Continuation::read(pairs) {
        Ok(continuation) => Ok(continuation),
        Err(fault) => Err(AskFault::from(fault)),
    }
}

fn filter(
    alloc: Global,
    collection: Collection,
    text: Option<&str>,
) -> Result<Option<Filter>, AskFault>
    ensures { AnswersFilter collection (option_copied text.entry) result }
{
    match text {
        Some(text) => read_filter(alloc, collection, text),
        None => Ok(None),
    }
}

fn read_filter(
    alloc: Global,
    collection: Collection,
    text: &str,
) -> Result<Option<Filter>, AskFault>
    ensures { AnswersFilter collection (Some text.now) result }
{
    let filter = cql_filter::read(alloc, text, collection)?;
    Ok(Some(filter))
}
