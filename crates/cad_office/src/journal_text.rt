//! Commands as lines.

ghost use Rattle.std.specs.Prelude.{◌≡◌, ◌++◌, IfOk, OnOk, string_bytes};
ghost use Rattle.cad_office.specs.JournalLines.{line_of, lines_of, end_line, end_if};

use cad_commands::write_command;
use cad_versions::Command;
use std::alloc::{AllocError, Global};

/// The line of a command: its text, and LF.
fn put_line(alloc: Global, command: &Command, text: &mut String) -> Result<(), AllocError>
    ensures { OnOk result (string_bytes text.new ≡ string_bytes text.old ++ line_of command.now) }
{
    let line = write_command(alloc, command)?;
    text.push_str(line.as_str())?;
    text.push_str("\n")
}

fn put_lines(alloc: Global, commands: &[Command], text: &mut String) -> Result<(), AllocError>
    ensures { OnOk result (string_bytes text.new ≡ string_bytes text.old ++ lines_of commands.now) }
{
    for command in commands {
        put_line(alloc, command, text)?;
    }
    Ok(())
}

fn put_end(newest: u64, text: &mut String) -> Result<(), AllocError>
    ensures { OnOk result (string_bytes text.new ≡ string_bytes text.old ++ end_line newest) }
{
    writeln!(text, "end {newest}")
}

/// The lines of these commands, and the end line after the last command of all.
pub(crate) fn piece_text(
    alloc: Global,
    front: &[Command],
    is_last: bool,
    newest: u64,
) -> Result<String, AllocError>
    ensures { IfOk result (λ text. string_bytes text ≡ lines_of front.now ++ end_if is_last newest) }
{
    let mut text = String::new(alloc);
    put_lines(alloc, front, &mut text)?;
    if is_last {
        put_end(newest, &mut text)?;
    }
    Ok(text)
}
