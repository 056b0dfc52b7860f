//! What is done to an object.

use crate::command_error::CommandError;
use crate::values::FromValue;
use serde_json::Value;
use std::alloc::Global;

/// What a command does to its object.
#[derive(Clone, Copy, Debug, PartialEq, Eq)]
pub enum Operation {
    /// Begins it.
    Enter,
    /// Ends its open version, and begins the next one.
    Amend,
    /// Ends it.
    Retire,
}

impl FromValue for Operation {
    ghost use Rattle.cad_commands.specs.Commands.{IsOperationOf};

    ghost said_by = { IsOperationOf };

    fn from_value(_alloc: Global, value: &Value) -> Result<Operation, CommandError> {
        match value.as_str() {
            Some("enter") => Ok(Operation::Enter),
            Some("amend") => Ok(Operation::Amend),
            Some("retire") => Ok(Operation::Retire),
            _ => Err(CommandError::NotACommand),
        }
    }
}
