//! The command that a line asks for, or why it is not a command.

ghost use Rattle.std.specs.Prelude.{◌≡◌, IfOk};
ghost use Rattle.serde_json.specs.Read.{read};
ghost use Rattle.serde_json.specs.View.{view};
ghost use Rattle.cad_dry_run.specs.Causes.{Explains};
ghost use Rattle.cad_dry_run.specs.Explained.{IsExplained};
ghost use Rattle.cad_dry_run.specs.inner.Stops.{IsCauseFor};

use crate::cause::{Cause, Explanation};
use crate::cause_place::place_of;
use crate::members::object;
use crate::nesting::broken_place;
use crate::object::check_object;
use crate::stop::ObjectStop;
use cad_commands::{CommandError, read_command};
use cad_versions::Command;
use serde_json::Value;
use std::alloc::{AllocError, Global};
use std::str;

/// The most bytes of a line that is a command.
const LONGEST: usize = 65_536;

/// What a line is.
#[derive(Debug, Drop)]
pub enum Explained {
    /// It asks for this command.
    Command(Command),
    /// It is no command, and this is why.
    NoCommand(Explanation),
}

/// The command that the line asks for, or why and where it is not a command.
///
/// An error means out of memory.
pub fn explain(alloc: Global, line: &[u8]) -> Result<Explained, AllocError>
    ensures { IfOk result (IsExplained line.now) }
{
    if line.len() > LONGEST {
        return Ok(Explained::NoCommand(Explanation {
            place: LONGEST,
            cause: Cause::LongLine,
        }));
    }
    match read_command(alloc, line) {
        Ok(command) => Ok(Explained::Command(command)),
        Err(CommandError::NotACommand) => {
            let explanation = explanation(alloc, line)?;
            Ok(Explained::NoCommand(explanation))
        }
        Err(CommandError::Memory) => Err(AllocError),
    }
}

/// A cause that is true of the line, and its place.
fn explanation(alloc: Global, line: &[u8]) -> Result<Explanation, AllocError>
    ensures { IfOk result (Explains line.now) }
{
    let text = match str::from_utf8(line) {
        Ok(text) => text,
        Err(error) => return Ok(Explanation {
            place: error.valid_up_to().min(line.len()),
            cause: Cause::NotUtf8,
        }),
    };
    match Value::from_str(alloc, text) {
        Ok(value) => of_value(alloc, line, value),
        Err(error) => if error.is_memory() {
            Err(AllocError)
        } else {
            of_broken(alloc, text)
        },
    }
}

/// The same for a text that is not JSON.
fn of_broken(alloc: Global, text: &str) -> Result<Explanation, AllocError>
    requires { read text.now ≡ None }
    ensures { IfOk result (Explains text.now) }
{
    let place = broken_place(alloc, text)?;
    if place == text.len() {
        Ok(Explanation {
            place,
            cause: Cause::JsonEnds,
        })
    } else {
        Ok(Explanation {
            place,
            cause: Cause::NotJson,
        })
    }
}

/// The same for a line that is this value.
fn of_value(alloc: Global, line: &[u8], value: Value) -> Result<Explanation, AllocError>
    requires { read line.now ≡ Some (view value) }
    ensures { IfOk result (Explains line.now) }
{
    let cause = cause_of(alloc, value)?;
    let place = place_of(alloc, line, &cause)?;
    Ok(Explanation { place, cause })
}

fn cause_of(alloc: Global, value: Value) -> Result<Cause, AllocError>
    ensures { IfOk result (IsCauseFor (view value)) }
{
    let Some(members) = object(value) else {
        return Ok(Cause::NotAnObject);
    };
    match check_object(alloc, members) {
        Ok(()) => Ok(Cause::Unexplained),
        Err(ObjectStop::Cause(cause)) => Ok(Cause::Object(cause)),
        Err(ObjectStop::Memory) => Err(AllocError),
    }
}
