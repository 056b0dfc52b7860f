//! One connection served over a ledger.

ghost use Rattle.std.specs.Io.KnownBytes.{IsAtEnd};
ghost use Rattle.cadastre_run.specs.Serving.{AnswersOver, AnswersSample, EndsServing};

use crate::outcome::Outcome;
use cad_desk::Desk;
use cad_io::{CountedRead, CountedWrite};
use cad_sample::fill;
use cad_serve::serve;
use cad_server::Server;
use cad_stream::Responder;
use cad_versions::{HistoryLedger, RegisterFault};
use std::alloc::Global;

/// Serves a connection of the desk, and gives the outcome of the run.
pub fn serve_one<P: Responder, R: CountedRead, W: CountedWrite>(
    alloc: Global,
    reader: &mut R,
    writer: &mut W,
    desk: &mut Desk<P>,
) -> Outcome
    ensures { EndsServing P.Responder (R.remaining reader.old) (R.remaining reader.new)
        (W.contents writer.old) (W.contents writer.new) (IsAtEnd (R.remaining reader.new)) desk.old result desk.new }
{
    Outcome::of_serving(serve(alloc, reader, writer, desk, 1))
}

/// Serves a connection over the ledger, and gives the ledger back.
pub fn answer_over<L: HistoryLedger, R: CountedRead, W: CountedWrite>(
    alloc: Global,
    ledger: L,
    reader: &mut R,
    writer: &mut W,
) -> (Outcome, L)
    ensures { AnswersOver L.Ledger (R.remaining reader.old) (R.remaining reader.new)
        (W.contents writer.old) (W.contents writer.new) (IsAtEnd (R.remaining reader.new)) ledger result }
{
    match Server::new(alloc, ledger) {
        Ok(server) => {
            let mut desk = Desk::new(alloc, server);
            let outcome = serve_one(alloc, reader, writer, &mut desk);
            (outcome, desk.release().release())
        }
        Err(ledger) => (Outcome::Register(RegisterFault::Memory), ledger),
    }
}

/// Serves a connection over the sample register, which is entered into the ledger first, and gives the ledger back.
pub fn answer_sample<L: HistoryLedger, R: CountedRead, W: CountedWrite>(
    alloc: Global,
    mut ledger: L,
    reader: &mut R,
    writer: &mut W,
) -> (Outcome, L)
    ensures { AnswersSample L.Ledger (R.remaining reader.old) (R.remaining reader.new)
        (W.contents writer.old) (W.contents writer.new) (IsAtEnd (R.remaining reader.new)) ledger result }
{
    match fill(alloc, &mut ledger) {
        Ok(_) => answer_over(alloc, ledger, reader, writer),
        Err(fault) => (Outcome::Register(fault), ledger),
    }
}
