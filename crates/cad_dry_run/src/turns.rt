//! Lines that are read, tried and reported.

ghost use Rattle.std.specs.Prelude.{◌≡◌, ◌↔◌, ◌≤◌, ℕ, List, ◌∷◌, [], length, Err, IsOk, IsTrue};
ghost use Rattle.std.specs.Io.KnownBytes.{IsAtEnd};
ghost use Rattle.cad_versions.specs.LedgerCalls.{Applies};
ghost use Rattle.cad_office.specs.Keeping.{most_reads, Asks, IsPaced};
ghost use Rattle.cad_dry_run.specs.Checking.{IsPiece, LinesAreReported, ReportsLine, ReportsLines};
ghost use Rattle.cad_io.specs.Counting.{CountsReads};
ghost use Rattle.cad_io.specs.Known.{ReadsAndWrites, Writes};
ghost use Rattle.cad_office.specs.Lines.{line_begun, longest_line, BuffersLine};
ghost use Rattle.cad_dry_run.specs.inner.Endings.{EndsLine};

use crate::explaining::{Explained, explain};
use crate::report::{Report, no_command, print_report};
use cad_io::{CountedRead, PIECE_LEN};
use cad_office::{Line, LineState, OfficeFault};
use cad_versions::{Command, Ledger, RegisterFault};
use std::alloc::{AllocError, Global};
use std::io::Write;

/// The most reads.
const TURNS: u32 = 1_000_000;

/// Reads lines to their end, applies each command and prints a report for each line. It returns whether no line was refused.
///
/// The ledger is one that may be changed, such as a copy in memory. Each read takes at most 4,096 bytes. It stops if a read or a write
/// fails, after 1,000,000 reads, and if the database refuses a command for another cause than memory.
pub fn check<R: CountedRead, W: Write, L: Ledger>(
    alloc: Global,
    reader: &mut R,
    writer: &mut W,
    ledger: &mut L,
) -> Result<bool, OfficeFault>
    ensures kept { ReadsAndWrites (R.remaining reader.old) (R.remaining reader.new)
        (W.contents writer.old) (W.contents writer.new)
        (λ read written. LinesAreReported (ReportsLines (Applies L.Ledger) ledger.old ledger.new) (IsAtEnd (R.remaining reader.new)) result read written
        × IsPaced result read) }
    ensures all { IsOk result → IsAtEnd (R.remaining reader.new) }
    ensures counted { CountsReads most_reads (result ≡ Err OfficeFault.TurnsSpent) (R.reads reader.old) (R.reads reader.new) }
{
    let mut line = Line::new(alloc);
    let mut accepted = true;
    for turn in 0..TURNS {
        let mut buffer = [0; PIECE_LEN];
        let count = match reader.read_once(&mut buffer) {
            Ok(count) => count,
            Err(_) => return Err(OfficeFault::Read),
        };
        if count == 0 {
            let last = end_line(alloc, &mut line, writer, ledger)?;
            return Ok(accepted & last);
        }
        let more = take_piece(alloc, &buffer[..count], &mut line, writer, ledger)?;
        accepted = accepted & more;
    }
    Err(OfficeFault::TurnsSpent)
}

/// Whether no line that ends in the piece was refused.
fn take_piece<W: Write, L: Ledger>(
    alloc: Global,
    piece: &[u8],
    line: &mut Line,
    writer: &mut W,
    ledger: &mut L,
) -> Result<bool, OfficeFault>
    ensures { (read : List ℕ) → BuffersLine (line_begun read) line.old → Writes (W.contents writer.old) (W.contents writer.new)
        (IsPiece (ReportsLines (Applies L.Ledger) ledger.old ledger.new) read result line.new piece.now) }
{
    let mut accepted = true;
    for byte in piece {
        let more = take_byte(alloc, *byte, line, writer, ledger)?;
        accepted = accepted & more;
    }
    Ok(accepted)
}

fn take_byte<W: Write, L: Ledger>(
    alloc: Global,
    byte: u8,
    line: &mut Line,
    writer: &mut W,
    ledger: &mut L,
) -> Result<bool, OfficeFault>
    ensures { (read : List ℕ) → BuffersLine (line_begun read) line.old → Writes (W.contents writer.old) (W.contents writer.new)
        (IsPiece (ReportsLines (Applies L.Ledger) ledger.old ledger.new) read result line.new (byte ∷ [])) }
{
    if byte == b'\n' {
        let accepted = end_line(alloc, line, writer, ledger)?;
        return Ok(accepted);
    }
    line.add(byte);
    Ok(true)
}

/// Whether the line was not refused. An empty line asks for nothing.
fn end_line<W: Write, L: Ledger>(
    alloc: Global,
    line: &mut Line,
    writer: &mut W,
    ledger: &mut L,
) -> Result<bool, OfficeFault>
    ensures { (read : List ℕ) → BuffersLine (line_begun read) line.old → Writes (W.contents writer.old) (W.contents writer.new)
        (IsPiece (ReportsLines (Applies L.Ledger) ledger.old ledger.new) read result line.new (10 ∷ [])) }
{
    if line.is_empty() {
        return Ok(true);
    }
    let report = report_of(alloc, line, ledger);
    line.clear();
    print_report(alloc, writer, &report)?;
    ending(report)
}

/// Whether the line of the report was not refused, or that the work ends.
fn ending(report: Report) -> Result<bool, OfficeFault>
    ensures { EndsLine report result }
{
    match report {
        Report::WouldBe(_) => Ok(true),
        Report::Refused(fault) => if is_store(fault) {
            Err(OfficeFault::Register)
        } else {
            Ok(false)
        },
        Report::NoCommand(_) => Ok(false),
        Report::LongLine => Ok(false),
    }
}

fn is_store(fault: RegisterFault) -> bool
    ensures { IsTrue result ↔ fault ≡ RegisterFault.Store }
{
    matches!(fault, RegisterFault::Store)
}

fn report_of<L: Ledger>(alloc: Global, line: &Line, ledger: &mut L) -> Report
    ensures { (text : List ℕ) → BuffersLine text line.now → ReportsLine (Applies L.Ledger) text ledger.old result ledger.new }
{
    match line.state() {
        LineState::TooLong => Report::LongLine,
        LineState::OutOfMemory(_) => Report::Refused(RegisterFault::Memory),
        LineState::Buffered => try_line(alloc, line.bytes(), ledger),
    }
}

/// Tries a line of at most 65,536 bytes.
fn try_line<L: Ledger>(alloc: Global, line: &[u8], ledger: &mut L) -> Report
    ensures { length line.now ≤ longest_line → ReportsLine (Applies L.Ledger) line.now ledger.old result ledger.new }
{
    match explain(alloc, line) {
        Ok(Explained::Command(command)) => apply(ledger, command),
        Ok(Explained::NoCommand(explanation)) => no_command(alloc, &explanation),
        Err(AllocError) => Report::Refused(RegisterFault::Memory),
    }
}

fn apply<L: Ledger>(ledger: &mut L, command: Command) -> Report
    ensures { (line : List ℕ) → Asks line command → ReportsLine (Applies L.Ledger) line ledger.old result ledger.new }
{
    match ledger.apply(command) {
        Ok(revision) => Report::WouldBe(revision),
        Err(fault) => Report::Refused(fault),
    }
}
