//! The lines of the land office, checked on a copy of a ledger.

ghost use Rattle.std.specs.Io.KnownBytes.{IsAtEnd};
ghost use Rattle.cadastred_run.specs.Checking.{ChecksOver};

use crate::outcome::Outcome;
use cad_dry_run::{check, enter_all};
use cad_io::CountedRead;
use cad_versions::{Command, Ledger};
use std::alloc::Global;
use std::io::Write;

/// Enters the commands of a journal into an empty ledger, applies the commands of lines to it, and prints a report for each line.
///
/// If the ledger refuses a command of the journal, nothing is read.
pub fn check_over<R: CountedRead, W: Write, L: Ledger>(
    alloc: Global,
    journal: Vec<Command>,
    reader: &mut R,
    writer: &mut W,
    copy: &mut L,
) -> Outcome
    ensures { ChecksOver (R.remaining reader.old) (R.remaining reader.new)
        (W.contents writer.old) (W.contents writer.new) (IsAtEnd (R.remaining reader.new)) L.Ledger copy.old journal.items result copy.new }
{
    match enter_all(copy, journal) {
        Ok(()) => Outcome::of_check(check(alloc, reader, writer, copy)),
        Err(fault) => Outcome::Register(fault),
    }
}
