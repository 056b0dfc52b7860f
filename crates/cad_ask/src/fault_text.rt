//! Why a query is refused, as a body.

ghost use Rattle.std.specs.Prelude.{◌≡◌, IfOk, Some, string_bytes};
ghost use Rattle.serde_json.specs.Read.{read};
ghost use Rattle.serde_json.specs.Written.{compact_text};
ghost use Rattle.cad_ask.specs.Bodies.{fault_data};

use crate::fault::AskFault;
use cad_json::{filter_fault_body, word_body};
use std::alloc::{AllocError, Global};

/// The body of a query's fault: its word, or for a filter its word, the cause and the place. An error means out of memory.
pub fn fault_body(alloc: Global, fault: &AskFault) -> Result<String, AllocError>
    ensures text { IfOk result (λ text. string_bytes text ≡ compact_text (fault_data fault.now)) }
    ensures reads_back { IfOk result (λ text. read (string_bytes text) ≡ Some (fault_data fault.now)) }
{
    match fault {
        AskFault::Filter { place, cause } => filter_fault_body(alloc, cause.name(), *place),
        _ => word_body(alloc, fault.word()),
    }
}
