//! What is printed for a line.

ghost use Rattle.std.specs.Prelude.{◌≡◌, IfOk, string_bytes};
ghost use Rattle.cad_io.specs.Writing.{IsWritten};
ghost use Rattle.cad_dry_run.specs.Reports.{report_text, IsPrintedFor};

use crate::cause::Explanation;
use crate::words::explanation_line;
use cad_io::{WriteFailed, write_whole};
use cad_office::{Answer, print_answer};
use cad_versions::RegisterFault;
use std::alloc::{AllocError, Global};
use std::io::Write;

/// What would come of a line.
#[derive(Debug, Drop)]
pub enum Report {
    /// The command would be accepted, and make this revision.
    WouldBe(u64),
    /// The register would refuse the command.
    Refused(RegisterFault),
    /// The line is not a command. This is the line that says why, with its LF.
    NoCommand(String),
    /// The line is too long for a command.
    LongLine,
}

/// The report for a line that is no command: the explanation in words, or that memory ran out.
pub fn no_command(alloc: Global, explanation: &Explanation) -> Report
    ensures { IsPrintedFor explanation.now result }
{
    match explanation_line(alloc, explanation) {
        Ok(text) => Report::NoCommand(text),
        Err(AllocError) => Report::Refused(RegisterFault::Memory),
    }
}

/// Prints the report as one line, or a prefix of it if a write fails or memory runs out.
pub fn print_report<W: Write>(
    alloc: Global,
    writer: &mut W,
    report: &Report,
) -> Result<(), WriteFailed>
    ensures { IsWritten (W.contents writer.old) (W.contents writer.new) (report_text report.now) result }
{
    match report {
        Report::WouldBe(revision) => print_revision(alloc, writer, *revision),
        Report::Refused(fault) => print_answer(writer, Answer::Refused(*fault)),
        Report::NoCommand(line) => write_whole(writer, line.as_bytes()),
        Report::LongLine => write_whole(writer, b"no command at 65536: more than 65536 bytes\n"),
    }
}

fn print_revision<W: Write>(alloc: Global, writer: &mut W, revision: u64) -> Result<(), WriteFailed>
    ensures { IsWritten (W.contents writer.old) (W.contents writer.new) (report_text (Report.WouldBe revision)) result }
{
    match revision_line(alloc, revision) {
        Ok(line) => write_whole(writer, line.as_bytes()),
        Err(AllocError) => Err(WriteFailed),
    }
}

fn revision_line(alloc: Global, revision: u64) -> Result<String, AllocError>
    ensures { IfOk result (λ text. string_bytes text ≡ report_text (Report.WouldBe revision)) }
{
    let mut line = String::new(alloc);
    writeln!(line, "would be {revision}")?;
    Ok(line)
}
