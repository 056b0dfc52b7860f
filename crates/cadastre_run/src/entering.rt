//! The lines of the land office, entered into a ledger.

ghost use Rattle.std.specs.Io.KnownBytes.{IsAtEnd};
ghost use Rattle.cad_versions.specs.LedgerCalls.{Applies};
ghost use Rattle.cadastre_run.specs.Entering.{EndsOffice};

use crate::outcome::Outcome;
use cad_io::CountedRead;
use cad_office::office;
use cad_versions::Ledger;
use std::alloc::Global;
use std::io::Write;

/// Enters the commands of the lines into the ledger, prints the answers, and gives the outcome of the run.
pub fn enter_commands<R: CountedRead, W: Write, L: Ledger>(
    alloc: Global,
    reader: &mut R,
    writer: &mut W,
    ledger: &mut L,
) -> Outcome
    ensures { EndsOffice (Applies L.Ledger) (R.remaining reader.old) (R.remaining reader.new)
        (W.contents writer.old) (W.contents writer.new) (IsAtEnd (R.remaining reader.new)) ledger.old result ledger.new }
{
    Outcome::of_office(office(alloc, reader, writer, ledger))
}
