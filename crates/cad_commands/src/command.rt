//! Commands, each a line of JSON.

ghost use Rattle.std.specs.Prelude.{map};
ghost use Rattle.serde_json.specs.View.{members_view};
ghost use Rattle.cad_commands.specs.Reading.{IsRead};
ghost use Rattle.cad_commands.specs.Commands.{Says, SaysBeginning, SaysCommand, SaysEnd};

use crate::body::body;
use crate::command_error::CommandError;
use crate::members::Members;
use crate::operation::Operation;
use cad_day::Day;
use cad_versions::{Body, Command, ObjectId};
use serde_json::Value;
use std::alloc::Global;
use std::str;

/// The command that the text says, or `NotACommand` if it says none.
pub fn read_command(alloc: Global, text: &[u8]) -> Result<Command, CommandError>
    ensures { IsRead (Says text.now) result }
{
    let text = str::from_utf8(text).map_err(|_| CommandError::NotACommand)?;
    match Value::from_str(alloc, text) {
        Ok(value) => command(alloc, Members::of(value)?),
        Err(error) => Err(if error.is_memory() {
            CommandError::Memory
        } else {
            CommandError::NotACommand
        }),
    }
}

fn command(alloc: Global, members: Members) -> Result<Command, CommandError>
    ensures { IsRead (SaysCommand (members_view members.map.entries)) result }
{
    match members.required(alloc, "do")? {
        Operation::Enter => {
            let (object, first, body) = beginning(alloc, members)?;
            Ok(Command::Enter {
                object,
                first,
                body,
            })
        }
        Operation::Amend => {
            let (object, first, body) = beginning(alloc, members)?;
            Ok(Command::Amend {
                object,
                first,
                body,
            })
        }
        Operation::Retire => {
            let (object, last) = end(alloc, members)?;
            Ok(Command::Retire { object, last })
        }
    }
}

/// The object, the first day and the body of a version that begins.
fn beginning(alloc: Global, members: Members) -> Result<(ObjectId, Day, Body), CommandError>
    ensures { IsRead (SaysBeginning (members_view members.map.entries)) result }
{
    let object = members.required(alloc, "object")?;
    let first = members.required(alloc, "first")?;
    let body = body(alloc, members)?;
    Ok((object, first, body))
}

/// The object that ends, and its last day.
fn end(alloc: Global, members: Members) -> Result<(ObjectId, Day), CommandError>
    ensures { IsRead (SaysEnd (members_view members.map.entries)) result }
{
    let object = members.required(alloc, "object")?;
    let last = members.required(alloc, "last")?;
    members.only(&["do", "object", "last"])?;
    Ok((object, last))
}
