//! What is printed for a line.

ghost use Rattle.cad_io.specs.Writing.{IsWritten};
ghost use Rattle.cad_office.specs.Answers.{printed};

use crate::write::write_pieces;
use cad_io::{WriteFailed, write_whole};
use cad_versions::RegisterFault;
use itoa::Buffer;
use std::io::Write;

/// The result of a line.
#[derive(Clone, Copy, Debug, PartialEq, Eq)]
pub enum Answer {
    /// The command was accepted, and made this revision.
    Entered(u64),
    /// The register refused the command.
    Refused(RegisterFault),
    /// The line is not a command.
    NotACommand,
}

/// Prints the answer as one line, or a prefix of it if a write fails.
pub fn print_answer<W: Write>(writer: &mut W, answer: Answer) -> Result<(), WriteFailed>
    ensures { IsWritten (W.contents writer.old) (W.contents writer.new) (printed answer) result }
{
    match answer {
        Answer::Entered(revision) => print_revision(writer, revision),
        Answer::Refused(fault) => print_refusal(writer, fault),
        Answer::NotACommand => write_whole(writer, b"refused 0 NotACommand\n"),
    }
}

fn print_revision<W: Write>(writer: &mut W, revision: u64) -> Result<(), WriteFailed>
    ensures { IsWritten (W.contents writer.old) (W.contents writer.new) (printed (Answer.Entered revision)) result }
{
    let mut number = Buffer::new();
    let pieces = [
        b"revision ".as_slice(),
        number.format(revision).as_bytes(),
        b"\n".as_slice(),
    ];
    write_pieces(writer, &pieces)
}

fn print_refusal<W: Write>(writer: &mut W, fault: RegisterFault) -> Result<(), WriteFailed>
    ensures { IsWritten (W.contents writer.old) (W.contents writer.new) (printed (Answer.Refused fault)) result }
{
    let mut number = Buffer::new();
    let number = number.format(fault.number()).as_bytes();
    let name = fault.name().as_bytes();
    let refused = b"refused ".as_slice();
    let blank = b" ".as_slice();
    let end = b"\n".as_slice();
    match fault {
        RegisterFault::DayNotAfter(day) => {
            let day = day.bytes();
            write_pieces(writer, &[refused, number, blank, name, blank, &day, end])
        }
        RegisterFault::Damaged {
            object,
            number: version,
        } => {
            let mut left = Buffer::new();
            let mut right = Buffer::new();
            let object = left.format(object).as_bytes();
            let version = right.format(version).as_bytes();
            let point = b".".as_slice();
            let pieces = [
                refused, number, blank, name, blank, object, point, version, end,
            ];
            write_pieces(writer, &pieces)
        }
        _ => write_pieces(writer, &[refused, number, blank, name, end]),
    }
}
