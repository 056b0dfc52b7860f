//! Why a text gives no command.

use std::alloc::{AllocError, AllocFailed};
use thiserror::Error;

/// Why a text gives no command.
#[derive(Clone, Copy, Debug, PartialEq, Eq, Error)]
pub enum CommandError {
    /// It is not the JSON text of a command.
    #[error("the text is not the JSON of a command")]
    NotACommand,
    /// Out of memory.
    #[error("out of memory")]
    Memory,
}

impl From<AllocError> for CommandError {
    ghost use Rattle.std.specs.Prelude.{◌≡◌};
    ghost use Rattle.cad_commands.specs.declared.command_error.CommandError.TheVariants.{Memory};

    ghost from_gives = { λ _ e. e ≡ Memory };

    fn from(_refused: AllocError) -> CommandError {
        CommandError::Memory
    }
}

impl<T: Drop> From<AllocFailed<T>> for CommandError {
    ghost use Rattle.std.specs.Prelude.{◌≡◌};
    ghost use Rattle.cad_commands.specs.declared.command_error.CommandError.TheVariants.{Memory};

    ghost from_gives = { λ _ e. e ≡ Memory };

    fn from(_refused: AllocFailed<T>) -> CommandError {
        CommandError::Memory
    }
}
