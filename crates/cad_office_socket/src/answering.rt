//! A desk's answer to a line, and what it would answer.

ghost use Rattle.std.specs.Prelude.{◌≡◌, ◌⊎◌, ◌≤◌, ◌<◌, ℕ, List, None, length, IfSome};
ghost use Rattle.cad_desk.specs.Desks.{ChecksAtDesk};
ghost use Rattle.cad_dry_run.specs.Checking.{ReportsLine};
ghost use Rattle.cad_office.specs.Keeping.{AnswersLine, Asks};
ghost use Rattle.cad_office.specs.Lines.{BuffersLine, longest_line};
ghost use Rattle.cad_office_socket.specs.Entries.{EntersAtDesk};
ghost use Rattle.cad_office_socket.specs.Checks.{ChecksLine, IsCheck};
ghost use Rattle.cad_office_socket.specs.Turns.{IsUnheld};

use crate::buffering::line_to_check;
use cad_commands::{CommandError, read_command};
use cad_desk::Desk;
use cad_dry_run::{Explained, Report, explain, no_command};
use cad_office::{Answer, Line, LineState};
use cad_stream::Responder;
use cad_versions::{Command, RegisterFault};
use std::alloc::{AllocError, Global};

fn apply<R: Responder>(desk: &mut Desk<R>, command: Command) -> Answer
    ensures { (line : List ℕ) → Asks line command → AnswersLine (EntersAtDesk R.Responder) line desk.old result desk.new }
{
    match desk.enter(command) {
        Ok(revision) => Answer::Entered(revision),
        Err(fault) => Answer::Refused(fault),
    }
}

/// The desk's answer to a line: its command is entered or refused, or it asks for none.
pub fn answer_line<R: Responder>(alloc: Global, line: &Line, desk: &mut Desk<R>) -> Answer
    ensures answered { (text : List ℕ) → BuffersLine text line.now → AnswersLine (EntersAtDesk R.Responder) text desk.old result desk.new }
    ensures unheld { IsUnheld line.now.state → result ≡ Answer.Refused RegisterFault.Memory }
{
    match line.state() {
        LineState::TooLong => Answer::NotACommand,
        LineState::OutOfMemory(_) => Answer::Refused(RegisterFault::Memory),
        LineState::Buffered => match read_command(alloc, line.bytes()) {
            Ok(command) => apply(desk, command),
            Err(CommandError::NotACommand) => Answer::NotACommand,
            Err(CommandError::Memory) => Answer::Refused(RegisterFault::Memory),
        },
    }
}

/// What a command would be answered.
fn check_command<R: Responder>(desk: &mut Desk<R>, command: &Command) -> Report
    ensures { (line : List ℕ) → Asks line command.now → ReportsLine (ChecksAtDesk R.Responder) line desk.old result desk.new }
{
    match desk.check(command) {
        Ok(revision) => Report::WouldBe(revision),
        Err(fault) => Report::Refused(fault),
    }
}

/// What a line of at most 65,536 bytes would be answered.
fn check_line<R: Responder>(alloc: Global, line: &[u8], desk: &mut Desk<R>) -> Report
    ensures { length line.now ≤ longest_line → ReportsLine (ChecksAtDesk R.Responder) line.now desk.old result desk.new }
{
    match explain(alloc, line) {
        Ok(Explained::Command(command)) => check_command(desk, &command),
        Ok(Explained::NoCommand(explanation)) => no_command(alloc, &explanation),
        Err(AllocError) => Report::Refused(RegisterFault::Memory),
    }
}

/// What LINE would be answered, if the line is `check LINE`.
pub(crate) fn checked<R: Responder>(
    alloc: Global,
    line: &Line,
    desk: &mut Desk<R>,
) -> Option<Report>
    ensures checked { IfSome result (λ report. (text : List ℕ) → BuffersLine text line.now → ChecksLine R.Responder text desk.old report desk.new) }
    ensures same { result ≡ None → desk.new ≡ desk.old }
    ensures unchecked { result ≡ None → (text : List ℕ) → BuffersLine text line.now → IsCheck text → IsUnheld line.now.state ⊎ longest_line < length text }
{
    let line = line_to_check(line)?;
    Some(check_line(alloc, line, desk))
}
