//! The land office's connection between its socket and the desk.

ghost use Rattle.std.specs.Prelude.{◌≡◌, ◌≤◌, length, IfOk, IsTrue};
ghost use Rattle.cad_dry_run.specs.Reports.{report_text};

use crate::answering::{answer_line, checked};
use crate::buffering::{add_all, asks_for_status, asks_to_stop, first_end, journal_after};
use crate::figures::Figures;
use crate::journal::{begin, next_lines, read_rows, refusal_text};
use crate::journal_state::{JournalRequest, JournalState};
use crate::status::{Status, status_bytes};
use crate::turned::{EntryServed, EntryTurned, end_at};
use cad_desk::Desk;
use cad_dry_run::{Report, print_report};
use cad_io::{PIECE_LEN, WriteFailed, rest_from};
use cad_network::{Network, is_blocked};
use cad_office::{JournalLines, Line, print_answer};
use cad_stream::JournalResponder;
use cad_versions::RegisterFault;
use std::alloc::Global;
use std::mem;

/// The most turns of the office before the clients have theirs.
const TURNS: u32 = 8;

/// What the office's connection holds between its socket and the desk: the bytes that were read and not taken, the line that has begun,
/// the unwritten part of the answer to the line before it, and how much of a journal the office got, of which `J` are the rows.
#[derive(Drop)]
pub struct Entry<J> {
    input: Vec<u8>,
    input_at: usize,
    line: Line,
    output: Vec<u8>,
    output_at: usize,
    journal: JournalState<J>,
    ends: bool,
    pub ghost input_within: { input_at ≤ length input.items },
    pub ghost output_within: { output_at ≤ length output.items },
}

/// What is to be written of a report.
fn report_bytes(alloc: Global, report: &Report) -> Result<Vec<u8>, WriteFailed>
    ensures { IfOk result (λ bytes. bytes.items ≡ report_text report.now) }
{
    let mut bytes = Vec::new(alloc);
    print_report(alloc, &mut bytes, report)?;
    Ok(bytes)
}

/// Whether rows of a journal were read: others are served before more are.
fn has_read(turned: &EntryTurned) -> bool
    ensures { IsTrue result → turned.now ≡ EntryTurned.RowsRead }
{
    matches!(turned, EntryTurned::RowsRead)
}

/// Whether bytes were written.
fn has_written(turned: &EntryTurned) -> bool
    ensures { IsTrue result → turned.now ≡ EntryTurned.Wrote }
{
    matches!(turned, EntryTurned::Wrote)
}

impl<J: Drop> Entry<J> {
    ghost use Rattle.std.specs.Prelude.{◌↔◌, ◌⊎◌, ◌<◌, ℕ, List, true, false, [], None, IfSome};
    ghost use Rattle.cad_office.specs.Lines.{longest_line};
    ghost use Rattle.cad_office_socket.specs.Checks.{IsCheck};
    ghost use Rattle.cad_office_socket.specs.Counting.{ShowsFigures};
    ghost use Rattle.cad_office_socket.specs.Statuses.{IsStatusLine};
    ghost use Rattle.cad_office_socket.specs.declared.figures.Figures.{Figures as FiguresOf};
    ghost use Rattle.cad_network.specs.Deeds.{AddsSome};
    ghost use Rattle.cad_office_socket.specs.Turns.{has_ended, HasBegun, HasNoJournal, IsUnheld, IsNewEntry, IsFed, IsEntryTurn, IsLineEnd, IsSending, MayEnd, SendsSome, AdvancesJournal, unread, unwritten};
    ghost use Rattle.cad_office_socket.specs.Serving.{IsEntryServed};
    ghost use Rattle.cad_office_socket.specs.inner.Pieces.{HasText, ReadsOn};
    ghost use Rattle.cad_office_socket.specs.Journals.{IsJournal, IsPiece};

    /// The connection of an office from which nothing was read.
    pub fn new(alloc: Global) -> Entry<J>
        ensures { IsNewEntry result }
    {
        Entry {
            input: Vec::new(alloc),
            input_at: 0,
            line: Line::new(alloc),
            output: Vec::new(alloc),
            output_at: 0,
            journal: JournalState::Idle,
            ends: false,
        }
    }

    /// Whether an answer is not fully written.
    pub fn is_sending(&self) -> bool
        ensures { IsTrue result ↔ IsSending self.now }
    {
        self.output_at < self.output.len()
    }

    /// How many bytes of an answer are not written.
    pub fn unwritten_len(&self) -> usize
        ensures { result ≡ length (unwritten self.now) }
    {
        self.output.len() - self.output_at
    }

    /// One write of an answer that is not fully written.
    pub fn send<N: Network>(&mut self, net: &mut N, socket: &N::Socket) -> EntryTurned
        requires { IsSending self.old }
        ensures { AddsSome (N.history net.old) (N.history net.new) (SendsSome (N.name socket.now) self.old result self.new) }
    {
        match net.write(socket, rest_from(&self.output, self.output_at)) {
            Ok(0) => EntryTurned::Over,
            Ok(count) => {
                self.output_at += count;
                EntryTurned::Wrote
            }
            Err(error) => if is_blocked(&error) {
                EntryTurned::Waits
            } else {
                EntryTurned::Over
            },
        }
    }

    /// Answers the line `status`, which ended.
    fn answer_status<R: JournalResponder<Reading = J>>(
        &mut self,
        alloc: Global,
        desk: &Desk<R>,
        figures: &Figures,
    ) -> EntryTurned
        requires nothing_unwritten { unwritten self.old ≡ [] }
        requires no_journal { HasNoJournal self.old }
        requires asked { (text : List ℕ) → HasBegun text self.old → IsStatusLine text }
        ensures ends { MayEnd result }
        ensures shown { ShowsFigures figures.now result }
        ensures goes_on { has_ended self.new ≡ has_ended self.old }
        ensures line { IsLineEnd R.Responder R.JournalResponder.own desk.now self.old result desk.now self.new }
    {
        let summary = desk.summary();
        let status = Status {
            summary,
            figures: *figures,
        };
        self.line.clear();
        let Ok(output) = status_bytes(alloc, &status) else {
            return EntryTurned::StatusLost;
        };
        self.output = output;
        self.output_at = 0;
        EntryTurned::StatusAnswered(status)
    }

    /// Answers the line that ended, which asks for no check, no status and no journal. An empty one asks for nothing.
    fn end_unchecked<R: JournalResponder<Reading = J>>(
        &mut self,
        alloc: Global,
        desk: &mut Desk<R>,
    ) -> EntryTurned
        requires nothing_unwritten { unwritten self.old ≡ [] }
        requires no_journal { HasNoJournal self.old }
        requires unchecked { (text : List ℕ) → HasBegun text self.old → IsCheck text → IsUnheld self.old.line.state ⊎ longest_line < length text }
        requires no_status { (text : List ℕ) → HasBegun text self.old → IsStatusLine text → IsUnheld self.old.line.state }
        requires no_request { (text : List ℕ) → HasBegun text self.old → IsJournal text → IsUnheld self.old.line.state ⊎ longest_line < length text }
        ensures ends { MayEnd result }
        ensures shown { (figures : FiguresOf) → ShowsFigures figures result }
        ensures goes_on { has_ended self.new ≡ has_ended self.old }
        ensures line { IsLineEnd R.Responder R.JournalResponder.own desk.old self.old result desk.new self.new }
    {
        if self.line.is_empty() {
            return EntryTurned::Added;
        }
        if asks_to_stop(&self.line) {
            self.line.clear();
            return EntryTurned::Stops;
        }
        let answer = answer_line(alloc, &self.line, desk);
        self.line.clear();
        let mut output = Vec::new(alloc);
        if print_answer(&mut output, answer).is_err() {
            return EntryTurned::Lost(answer);
        }
        self.output = output;
        self.output_at = 0;
        EntryTurned::Answered(answer)
    }

    /// Answers the line that ended; or checks the rest of one that asks for that, or shows the status or begins the journal that it asks for.
    fn end_line<R: JournalResponder<Reading = J>>(
        &mut self,
        alloc: Global,
        desk: &mut Desk<R>,
        figures: &Figures,
    ) -> EntryTurned
        requires nothing_unwritten { unwritten self.old ≡ [] }
        requires no_journal { HasNoJournal self.old }
        ensures ends { MayEnd result }
        ensures shown { ShowsFigures figures.now result }
        ensures goes_on { has_ended self.new ≡ has_ended self.old }
        ensures line { IsLineEnd R.Responder R.JournalResponder.own desk.old self.old result desk.new self.new }
    {
        if let Some(report) = checked(alloc, &self.line, desk) {
            self.line.clear();
            let Ok(output) = report_bytes(alloc, &report) else {
                return EntryTurned::CheckLost(report);
            };
            self.output = output;
            self.output_at = 0;
            return EntryTurned::Checked(report);
        }
        if asks_for_status(&self.line) {
            return self.answer_status(alloc, desk, figures);
        }
        if let Some(behind) = journal_after(&self.line) {
            self.line.clear();
            self.journal = begin(desk, behind);
            return EntryTurned::JournalBegun(behind);
        }
        self.end_unchecked(alloc, desk)
    }

    /// Takes the bytes of a line, up to its end if that was read.
    fn feed_some<R: JournalResponder<Reading = J>>(
        &mut self,
        alloc: Global,
        desk: &mut Desk<R>,
        figures: &Figures,
    ) -> EntryTurned
        requires nothing_unwritten { unwritten self.old ≡ [] }
        requires no_journal { HasNoJournal self.old }
        ensures ends { MayEnd result }
        ensures shown { ShowsFigures figures.now result }
        ensures goes_on { has_ended self.new ≡ has_ended self.old }
        ensures fed { IsFed R.Responder R.JournalResponder.own desk.old self.old result desk.new self.new }
    {
        let rest = rest_from(&self.input, self.input_at);
        let Some(count) = first_end(rest) else {
            add_all(&mut self.line, rest);
            self.input_at = self.input.len();
            return EntryTurned::Added;
        };
        add_all(&mut self.line, &rest[..count]);
        self.input_at += count + 1;
        self.end_line(alloc, desk, figures)
    }

    /// The office sends no more: this ends a line that has begun.
    fn end_input<R: JournalResponder<Reading = J>>(
        &mut self,
        alloc: Global,
        desk: &mut Desk<R>,
        figures: &Figures,
    ) -> EntryTurned
        requires nothing_unwritten { unwritten self.old ≡ [] }
        requires no_journal { HasNoJournal self.old }
        ensures ends { MayEnd result }
        ensures shown { ShowsFigures figures.now result }
        ensures over { has_ended self.new ≡ true }
        ensures line { IsLineEnd R.Responder R.JournalResponder.own desk.old self.old result desk.new self.new }
    {
        self.ends = true;
        self.end_line(alloc, desk, figures)
    }

    /// One read.
    fn read_some<N: Network, R: JournalResponder<Reading = J>>(
        &mut self,
        alloc: Global,
        net: &mut N,
        socket: &N::Socket,
        desk: &mut Desk<R>,
        figures: &Figures,
    ) -> EntryTurned
        requires nothing_unread { unread self.old ≡ [] }
        requires nothing_unwritten { unwritten self.old ≡ [] }
        requires no_journal { HasNoJournal self.old }
        requires goes_on { has_ended self.old ≡ false }
        ensures shown { ShowsFigures figures.now result }
        ensures turned { AddsSome (N.history net.old) (N.history net.new)
            (IsEntryTurn R.Responder R.JournalResponder.own (N.name socket.now) desk.old self.old result desk.new self.new) }
    {
        let mut buffer = [0; PIECE_LEN];
        match net.read(socket, &mut buffer) {
            Ok(0) => self.end_input(alloc, desk, figures),
            Ok(count) => {
                let Ok(input) = Vec::from_slice(alloc, &buffer[..count]) else {
                    return EntryTurned::Over;
                };
                self.input_at = 0;
                self.input = input;
                EntryTurned::Took
            }
            Err(error) => if is_blocked(&error) {
                EntryTurned::Waits
            } else {
                EntryTurned::Over
            },
        }
    }

    /// The office gets no journal: the refusal is to be written.
    fn refuse(&mut self, alloc: Global, fault: RegisterFault) -> EntryTurned
        requires { HasNoJournal self.old }
        ensures { HasText (IsPiece (JournalState.Rejected fault)) self.old result self.new }
    {
        let Ok(output) = refusal_text(alloc, fault) else {
            return EntryTurned::PieceLost;
        };
        self.output = output;
        self.output_at = 0;
        EntryTurned::Piece
    }

    /// The next lines of a journal are to be written.
    fn write_lines(&mut self, alloc: Global, lines: JournalLines) -> EntryTurned
        ensures { HasText (IsPiece (JournalState.Writing lines)) self.old result self.new }
    {
        let Ok((output, rest)) = next_lines(alloc, lines) else {
            return EntryTurned::PieceLost;
        };
        self.output = output;
        self.output_at = 0;
        self.journal = rest;
        EntryTurned::Piece
    }

    /// Reads the next rows of a journal. If the desk refuses that, the refusal is to be written.
    fn read_on<R: JournalResponder<Reading = J>>(
        &mut self,
        alloc: Global,
        desk: &mut Desk<R>,
        asked: JournalRequest<J>,
    ) -> EntryTurned
        requires nothing_unwritten { unwritten self.old ≡ [] }
        requires no_journal { HasNoJournal self.old }
        ensures { ReadsOn R.Responder R.JournalResponder.own asked desk.old self.old result desk.new self.new }
    {
        match read_rows(desk, asked) {
            Ok(next) => {
                self.journal = next;
                EntryTurned::RowsRead
            }
            Err(fault) => {
                let Ok(output) = refusal_text(alloc, fault) else {
                    return EntryTurned::RowsLost(fault);
                };
                self.output = output;
                self.output_at = 0;
                EntryTurned::RowsRefused(fault)
            }
        }
    }

    /// Goes on with the journal that the office requested, if it did.
    fn advance_journal<R: JournalResponder<Reading = J>>(
        &mut self,
        alloc: Global,
        desk: &mut Desk<R>,
    ) -> Option<EntryTurned>
        requires { unwritten self.old ≡ [] }
        ensures quiet { result ≡ None → HasNoJournal self.old }
        ensures same { result ≡ None → self.new ≡ self.old }
        ensures still { result ≡ None → desk.new ≡ desk.old }
        ensures turn { IfSome result (λ turned. AdvancesJournal R.Responder R.JournalResponder.own desk.old self.old turned desk.new self.new) }
    {
        match mem::replace(&mut self.journal, JournalState::Idle) {
            JournalState::Idle => None,
            JournalState::Rejected(fault) => Some(self.refuse(alloc, fault)),
            JournalState::Reading(asked) => Some(self.read_on(alloc, desk, asked)),
            JournalState::Writing(lines) => Some(self.write_lines(alloc, lines)),
        }
    }

    /// Does one thing. If an answer is to be written, this is a write. Else, if the office requested a journal, more of it is read or is to be written. Else,
    /// if bytes were read and not taken, it takes those of a line, and if the line ends, its command is entered and answered. Else it is a
    /// read. The last line needs no LF. A status shows these figures.
    pub fn turn<N: Network, R: JournalResponder<Reading = J>>(
        &mut self,
        alloc: Global,
        net: &mut N,
        socket: &N::Socket,
        desk: &mut Desk<R>,
        figures: &Figures,
    ) -> EntryTurned
        ensures shown { ShowsFigures figures.now result }
        ensures turned { AddsSome (N.history net.old) (N.history net.new)
            (IsEntryTurn R.Responder R.JournalResponder.own (N.name socket.now) desk.old self.old result desk.new self.new) }
    {
        if self.output_at < self.output.len() {
            return self.send(net, socket);
        }
        if let Some(turned) = self.advance_journal(alloc, desk) {
            return turned;
        }
        if self.ends {
            return EntryTurned::Over;
        }
        if self.input_at < self.input.len() {
            return self.feed_some(alloc, desk, figures);
        }
        self.read_some(alloc, net, socket, desk, figures)
    }

    /// Serves the office with at most eight turns: up to one that ends its work, or at which its socket gives and takes nothing, or with
    /// which an answer is fully written, or at which rows of a journal are read. A refusal by the register's database ends its work before
    /// its answer is written. A status shows the figures before its turn, and each answer to a command counts.
    pub fn serve<N: Network, R: JournalResponder<Reading = J>>(
        &mut self,
        alloc: Global,
        net: &mut N,
        socket: &N::Socket,
        desk: &mut Desk<R>,
        figures: &mut Figures,
    ) -> EntryServed
        ensures { AddsSome (N.history net.old) (N.history net.new)
            (IsEntryServed R.Responder R.JournalResponder.own (N.name socket.now) figures.old figures.new desk.old self.old result desk.new self.new) }
    {
        for _ in 0..TURNS {
            let turned = self.turn(alloc, net, socket, desk, figures);
            *figures = figures.with_turn(&turned);
            if let Some(served) = end_at(&turned) {
                return served;
            }
            if has_read(&turned) {
                return EntryServed::Goes;
            }
            if has_written(&turned) && !self.is_sending() {
                return EntryServed::Goes;
            }
        }
        EntryServed::Goes
    }
}
