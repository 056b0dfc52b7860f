//! What the program prints about itself.

ghost use Rattle.cadastred.specs.Words.{Begins, IsLine};

use cadastred_run::{HELP, Invocation, Outcome, Service};
use std::io::Write;

/// What is done with a register's file.
#[derive(Clone, Copy, Debug, PartialEq, Eq)]
pub enum Work<'a> {
    /// It is served.
    Serve(Service<'a>),
    /// The journal of the register in the file at this path is printed.
    PrintJournal(&'a str),
    /// What the register in the file at this path would answer to lines is printed.
    CheckLines(&'a str),
}

/// The program's name and version.
const VERSION: &str = "cadastred 0.1.0";

/// Writes a line.
fn write_line<W: Write>(writer: &mut W, line: &str) -> Outcome
    ensures { IsLine (W.contents writer.old) (W.contents writer.new) line.now result }
{
    match writeln!(writer, "{line}") {
        Ok(()) => Outcome::Good,
        Err(_) => Outcome::Failed,
    }
}

/// The requested work, or how the run ends without any. If the usage or the version is requested, it is written.
pub fn begin<'a, W: Write>(
    invocation: Option<Invocation<'a>>,
    writer: &mut W,
) -> Result<Work<'a>, Outcome>
    ensures { Begins (W.contents writer.old) (W.contents writer.new) invocation.entry result }
{
    match invocation {
        Some(Invocation::Serve(service)) => Ok(Work::Serve(service)),
        Some(Invocation::Journal(file)) => Ok(Work::PrintJournal(file)),
        Some(Invocation::Check(file)) => Ok(Work::CheckLines(file)),
        Some(Invocation::Help) => Err(write_line(writer, HELP)),
        Some(Invocation::Version) => Err(write_line(writer, VERSION)),
        None => Err(Outcome::Usage),
    }
}
