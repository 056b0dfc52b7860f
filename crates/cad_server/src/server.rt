//! The server.

use crate::beginning::part_for;
use crate::laws::requests_have_one_reply;
use crate::page_work::PageWork;
use crate::records::{MOST_CHANGES, Records};
use crate::work_meter::WorkMeter;
use crate::working;
use cad_head::reply_bytes;
use cad_json::word_body;
use cad_request::ParsedRequest;
use cad_resource::{Check, Routes, decide};
use cad_stream::{Answer, Begun, JournalResponder, Part, Responder, Summary, WorkingResponder};
use cad_versions::{Command, HistoryLedger, JournalLedger, Ledger, RegisterFault};
use httparse::spans::{HeaderSpan, RequestSpans};
use std::alloc::{AllocError, Global};

/// Answers requests over a ledger. It keeps the features at every revision, once they were read from the ledger. A command adds to them, and
/// nothing is read from the ledger again, unless memory ran out.
pub struct Server<L: Ledger> {
    records: Records<L>,
    routes: Routes,
    alloc: Global,
}

impl<L: Ledger + Drop> Drop for Server<L> {
    fn drop(self) {
        let Server {
            records: _,
            routes: _,
            alloc: _,
        } = self;
    }
}

impl<L: Ledger> Server<L> {
    ghost use Rattle.std.specs.Prelude.{◌≡◌, List, IfOk, IfErr};
    ghost use Rattle.cad_versions.specs.declared.command.Command.{Command as CommandOf};
    ghost use Rattle.cad_server.specs.Servers.{bound_of, ledger_of, IsServerOf};

    /// A server over the ledger, or the ledger back if there is no memory.
    pub fn new(alloc: Global, ledger: L) -> Result<Server<L>, L>
        ensures made { IfOk result (λ server. (commands : List CommandOf) → L.Ledger.stands_for ledger commands →
            IsServerOf L.Ledger server commands) }
        ensures same { IfOk result (λ server. ledger_of server ≡ ledger) }
        ensures back { IfErr result (λ back. back ≡ ledger) }
        ensures bound { IfOk result (λ server. bound_of server ≡ 2048) }
    {
        Server::with_changes(alloc, ledger, MOST_CHANGES)
    }

    /// The same, but the bases of a collection get at most this many changes before new ones are made.
    pub fn with_changes(alloc: Global, ledger: L, most_changes: usize) -> Result<Server<L>, L>
        ensures made { IfOk result (λ server. (commands : List CommandOf) → L.Ledger.stands_for ledger commands →
            IsServerOf L.Ledger server commands) }
        ensures same { IfOk result (λ server. ledger_of server ≡ ledger) }
        ensures back { IfErr result (λ back. back ≡ ledger) }
        ensures bound { IfOk result (λ server. bound_of server ≡ most_changes) }
    {
        let Ok(routes) = Routes::new(alloc) else {
            return Err(ledger);
        };
        let records = Records::new(alloc, ledger, most_changes)?;
        Ok(Server {
            records,
            routes,
            alloc,
        })
    }

    /// The ledger.
    pub fn release(self) -> L
        ensures { result ≡ ledger_of self }
    {
        let Server {
            records,
            routes: _,
            alloc: _,
        } = self;
        records.release()
    }
}

impl<L: HistoryLedger> Server<L> {
    ghost use Rattle.cad_server.specs.Servers.{ServerPrepares};

    /// Reads all that the ledger stores, if that was not done yet, so that no request waits for it.
    pub fn prepare(&mut self) -> Result<(), RegisterFault>
        ensures { ServerPrepares L.Ledger self.old result self.new }
    {
        self.records.prepare()
    }
}

impl<L: JournalLedger> Server<L> {
    ghost use Rattle.cad_server.specs.Chaining.{ServerKeepsChain};

    /// Reads all commands of the ledger, and keeps their chain from then on, which the summary shows. It needs memory for all commands at once.
    pub fn keep_chain(&mut self) -> Result<(), RegisterFault>
        ensures { ServerKeepsChain L.Ledger L.JournalLedger.own self.old result self.new }
    {
        self.records.keep_chain()
    }
}

impl<L: HistoryLedger> Responder for Server<L> {
    ghost use Rattle.cad_resource.specs.Requested.{ends_after};
    ghost use Rattle.cad_server.specs.Replies.{IsReply, bad_head_reply, Asks, FailsToAnswer};
    ghost use Rattle.cad_server.specs.Servers.{ledger_of, IsServerOf, SeeksOf, RefusesToAnswer, DamagedForAnswer};
    ghost use Rattle.cad_server.specs.Refusing.{failing_keeps, seeking_asks};

    ghost stands_for = { IsServerOf L.Ledger };

    ghost counts = { λ server. L.Ledger.counts (ledger_of server) };

    ghost lives = { λ server. L.Ledger.lives (ledger_of server) };

    ghost fails = { λ old new. L.Ledger.fails (ledger_of old) (ledger_of new) };

    ghost replies = { IsReply };

    ghost closes = { ends_after };

    ghost bad_head = { bad_head_reply };

    ghost asks = { Asks };

    ghost seeks = { SeeksOf L.Ledger };

    ghost fails_to_answer = { FailsToAnswer L.Ledger.fails_to_list };

    ghost fails_to_enter = { L.Ledger.fails_to_apply };

    ghost refuses_answer = { RefusesToAnswer L.Ledger };

    ghost refuses_command = { λ old new. L.Ledger.refuses_command (ledger_of old) (ledger_of new) };

    ghost damaged_for_answer = { DamagedForAnswer L.Ledger };

    ghost damaged_for_command = { λ old new. L.Ledger.damaged_for_command (ledger_of old) (ledger_of new) };

    ghost remains = { λ old new. L.Ledger.remains (ledger_of old) (ledger_of new) };

    ghost answer_keeps = { failing_keeps L.Ledger.list_keeps };

    ghost seeks_asks = { λ server. seeking_asks (L.Ledger.newest (ledger_of server)) };

    ghost enter_keeps = { L.Ledger.apply_keeps };

    ghost remains_here = { λ server. L.Ledger.remains_here (ledger_of server) };

    ghost remains_then = { λ old mid new. L.Ledger.remains_then (ledger_of old) (ledger_of mid) (ledger_of new) };

    ghost fails_before = { λ old mid new. L.Ledger.fails_before (ledger_of old) (ledger_of mid) (ledger_of new) };

    fn answer(
        &mut self,
        bytes: &[u8],
        headers: &[HeaderSpan],
        spans: &RequestSpans,
    ) -> Result<Answer, RegisterFault> {
        let begun = self.begin_answer(bytes, headers, spans)?;
        let ends = begun.ends;
        let bytes = working::finish(self.alloc, begun.part)?;
        Ok(Answer { bytes, ends })
    }

    fn bad_head(&self) -> Result<Vec<u8>, AllocError> {
        let check = Check::BadHead;
        let body = word_body(self.alloc, check.word())?;
        reply_bytes(
            self.alloc,
            check.status(),
            check.ends_connection(),
            body.as_str(),
        )
    }

    fn enter(&mut self, command: Command) -> Result<u64, RegisterFault> {
        self.records.enter(command)
    }

    fn check(&mut self, command: &Command) -> Result<u64, RegisterFault> {
        self.records.check(command)
    }

    fn one_reply() {
        requests_have_one_reply();
    }
}

impl<L: HistoryLedger> WorkingResponder for Server<L> {
    ghost use Rattle.cad_server.specs.Works.{reply_owed, remaining_of, spent_by};

    type Work = PageWork;

    ghost owes = { reply_owed };

    ghost remaining = { remaining_of };

    type Meter = WorkMeter;

    ghost spent = { spent_by };

    fn begin(
        &mut self,
        bytes: &[u8],
        headers: &[HeaderSpan],
        spans: &RequestSpans,
    ) -> Result<Begun<PageWork>, RegisterFault> {
        self.begin_answer(bytes, headers, spans)
    }

    fn go_on(
        alloc: Global,
        work: PageWork,
        budget: u32,
        meter: &mut WorkMeter,
    ) -> Result<Part<PageWork>, AllocError> {
        working::go_on(alloc, work, budget, meter)
    }
}

impl<L: HistoryLedger + JournalLedger> JournalResponder for Server<L> {
    ghost use Rattle.cad_server.specs.Servers.{ledger_of};

    type Reading = L::Reading;

    ghost has_read = { L.has_read };

    ghost behind_of = { L.behind_of };

    ghost newest_of = { L.newest_of };

    ghost rows_left = { L.rows_left };

    ghost fails_to_read = { L.fails_to_read };

    ghost refuses_reading = { λ old new. L.refuses_reading (ledger_of old) (ledger_of new) };

    ghost damaged_for_reading = { λ old new. L.damaged_for_reading (ledger_of old) (ledger_of new) };

    ghost read_keeps = { L.read_keeps };

    ghost were_accepted = { λ server commands them. L.Ledger.were_accepted (ledger_of server) commands them.ledger };

    ghost readings_are_within = { L.readings_are_within };

    fn begin_journal(&self, behind: u64) -> Result<L::Reading, RegisterFault> {
        self.records.begin_journal(behind)
    }

    fn read_on(&mut self, reading: &mut L::Reading, most: u32) -> Result<bool, RegisterFault> {
        self.records.read_on(reading, most)
    }

    fn commands(reading: L::Reading, alloc: Global) -> Result<Vec<Command>, RegisterFault> {
        L::commands(reading, alloc)
    }

    fn summary(&self) -> Summary {
        self.records.summary()
    }

    fn readings_stay() {
        L::readings_stay();
    }
}

impl<L: HistoryLedger> Server<L> {
    ghost use Rattle.httparse.specs.Spans.{IsRequestWithin};
    ghost use Rattle.cad_head.specs.Request.{request_at};
    ghost use Rattle.cad_server.specs.inner.Beginnings.{IsBegun};

    /// Begins to answer the request that `spans` show in the bytes of a head: a page is left to be made, and any other reply is made.
    fn begin_answer(
        &mut self,
        bytes: &[u8],
        headers: &[HeaderSpan],
        spans: &RequestSpans,
    ) -> Result<Begun<PageWork>, RegisterFault>
        requires { IsRequestWithin bytes.now headers.now spans.now }
        ensures { IsBegun L.Ledger self.old (request_at bytes.now headers.now spans.now) result self.new }
    {
        let decision = decide(&self.routes, bytes, headers, spans);
        let wanted = ParsedRequest::of(self.alloc, &decision.requested)?;
        let told = self.records.tell(wanted)?;
        let ends = decision.ends;
        let part = part_for(self.alloc, told, ends)?;
        Ok(Begun { part, ends })
    }
}
