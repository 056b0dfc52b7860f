//! Why a request is refused.

ghost use Rattle.std.specs.Prelude.{◌≡◌, IfOk, Some, string_bytes};
ghost use Rattle.serde_json.specs.Read.{read};
ghost use Rattle.serde_json.specs.View.{view};
ghost use Rattle.serde_json.specs.Written.{compact_text};
ghost use Rattle.cad_json.specs.Faults.{word_data, filter_fault_data};

use serde_json::{Value as Json, json};
use std::alloc::{AllocError, Global};

/// The body of a fault, by its word. An error means out of memory.
pub fn word_body(alloc: Global, word: &str) -> Result<String, AllocError>
    ensures text { IfOk result (λ text. string_bytes text ≡ compact_text (word_data word.now)) }
    ensures reads_back { IfOk result (λ text. read (string_bytes text) ≡ Some (word_data word.now)) }
{
    word_json(alloc, word)?.to_string(alloc)
}

/// The body of the fault of a filter, by the name of its cause and its place in the filter's text.
/// An error means out of memory.
pub fn filter_fault_body(alloc: Global, cause: &str, place: usize) -> Result<String, AllocError>
    ensures text { IfOk result (λ text. string_bytes text ≡ compact_text (filter_fault_data cause.now place)) }
    ensures reads_back { IfOk result (λ text. read (string_bytes text) ≡ Some (filter_fault_data cause.now place)) }
{
    filter_fault_json(alloc, cause, place)?.to_string(alloc)
}

fn word_json(alloc: Global, word: &str) -> Result<Json, AllocError>
    ensures { IfOk result (λ json. view json ≡ word_data word.now) }
{
    json!(in alloc; {"fault": word})
}

fn filter_fault_json(alloc: Global, cause: &str, place: usize) -> Result<Json, AllocError>
    ensures { IfOk result (λ json. view json ≡ filter_fault_data cause.now place) }
{
    json!(in alloc; {"cause": cause, "fault": "filter", "place": place})
}
