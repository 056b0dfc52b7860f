//! A connection between its socket and the desk.

ghost use Rattle.std.specs.Prelude.{◌≤◌, length};

use crate::calls::{close, give_up, refuse};
use crate::cut::{first_part, rest_from};
use crate::parts::{go_on_with, is_first_made};
use crate::turned::{Ending, Turned};
use cad_desk::{Desk, DeskFault, Owing};
use cad_network::{Network, is_blocked};
use cad_stream::{Part, WorkingResponder};
use std::alloc::Global;

/// The most bytes of a read.
const PIECE_LEN: usize = 4096;

/// What a connection holds between its socket and the desk: bytes that were read and that the desk has not taken, bytes that
/// the desk sends and that were not written, and the replies behind them that were begun.
#[derive(Debug, Drop)]
pub struct Channel<W> {
    input: Vec<u8>,
    fed_at: usize,
    input_at: usize,
    output: Vec<u8>,
    output_at: usize,
    parts: Vec<Part<W>>,
    ends: bool,
    pub ghost fed_within: { fed_at ≤ input_at },
    pub ghost input_within: { input_at ≤ length input.items },
    pub ghost output_within: { output_at ≤ length output.items },
    pub ghost few: { length input.items ≤ 4096 },
}

impl<W: Drop> Channel<W> {
    ghost use Rattle.std.specs.Prelude.{◌≡◌, ◌<◌, ◌+◌, ◌*◌, ◌↔◌, ℕ, false, IsTrue, List, [], ◌∷◌};
    ghost use Rattle.cad_network.specs.Deeds.{gave, AddsSome};
    ghost use Rattle.cad_serve.specs.Serving.{IsPiece};
    ghost use Rattle.cad_clients.specs.Budgets.{worked_by, GetsLess};
    ghost use Rattle.cad_clients.specs.Channels.{unfed, at_hand, unsent, last_fed as last_fed_of, has_ended, is_working as is_working_of, IsReady, IsIdle, IsSending, IsWorking, IsTurn};
    ghost use Rattle.cad_clients.specs.Laws.{IsNew};

    /// The channel of a connection from which nothing was read.
    pub fn new(alloc: Global) -> Channel<W>
        ensures new { IsNew result }
        ensures goes_on { has_ended result ≡ false }
    {
        Channel {
            input: Vec::new(alloc),
            fed_at: 0,
            input_at: 0,
            output: Vec::new(alloc),
            output_at: 0,
            parts: Vec::new(alloc),
            ends: false,
        }
    }

    /// The bytes at hand, which are to be written.
    pub fn sending(&self) -> &[u8]
        ensures { result.now ≡ at_hand self.now }
    {
        rest_from(&self.output, self.output_at)
    }

    /// The bytes that the desk took last.
    pub fn last_fed(&self) -> &[u8]
        ensures { result.now ≡ last_fed_of self.now }
    {
        &self.input[self.fed_at..self.input_at]
    }

    /// Whether all bytes at hand were written, and the reply that is owed next is not made.
    pub fn is_working(&self) -> bool
        ensures { result ≡ is_working_of self.now }
    {
        self.sending().is_empty() && !self.parts.is_empty()
    }

    /// Whether replies are owed behind the bytes at hand.
    pub(crate) fn owes_more(&self) -> bool
        ensures { IsTrue result ↔ (0 < length self.now.parts.items) }
    {
        !self.parts.is_empty()
    }

    /// One write.
    fn write_some<N: Network, R: WorkingResponder<Work = W>>(
        &mut self,
        c: u32,
        net: &mut N,
        socket: &N::Socket,
        desk: &mut Desk<R>,
    ) -> Turned
        requires { IsSending self.old }
        ensures { AddsSome (N.history net.old) (N.history net.new)
            (IsTurn R.Responder R.owes c (N.name socket.now) desk.old self.old result desk.new self.new) }
    {
        match net.write(socket, rest_from(&self.output, self.output_at)) {
            Ok(0) => {
                close(desk, c);
                Turned::Over(Ending::WriteFailed)
            }
            Ok(count) => {
                self.output_at += count;
                Turned::Wrote
            }
            Err(error) => {
                if is_blocked(&error) {
                    return Turned::Waits;
                }
                close(desk, c);
                Turned::Over(Ending::WriteFailed)
            }
        }
    }

    /// A piece of work for the next reply.
    fn work_some<N: Network, R: WorkingResponder<Work = W>>(
        &mut self,
        alloc: Global,
        c: u32,
        budget: u32,
        net: &mut N,
        socket: &N::Socket,
        desk: &mut Desk<R>,
        meter: &mut R::Meter,
    ) -> Turned
        requires budget { 0 < budget }
        requires working { IsWorking self.old }
        ensures works { worked_by result ≡ 1 }
        ensures bounded { R.spent meter.new ≤ R.spent meter.old + budget }
        ensures less { GetsLess R.remaining result self.old self.new }
        ensures turn { AddsSome (N.history net.old) (N.history net.new)
            (IsTurn R.Responder R.owes c (N.name socket.now) desk.old self.old result desk.new self.new) }
    {
        let part = self.parts.remove(0);
        match go_on_with::<R>(alloc, part, budget, meter) {
            Ok(Part::Made(bytes)) => {
                self.output = bytes;
                self.output_at = 0;
                Turned::Worked
            }
            Ok(Part::Left(work)) => match self.parts.insert(0, Part::Left(work)) {
                Ok(_) => Turned::Worked,
                Err(_) => give_up(c, net, socket, desk),
            },
            Err(_) => give_up(c, net, socket, desk),
        }
    }

    /// Passes the next reply on, if it is made.
    fn take_made(&mut self)
        requires { at_hand self.old ≡ [] }
        ensures sent { (owes : W → List ℕ) → unsent owes self.new ≡ unsent owes self.old }
        ensures fed { unfed self.new ≡ unfed self.old }
        ensures last_fed { last_fed_of self.new ≡ last_fed_of self.old }
        ensures ends { has_ended self.new ≡ has_ended self.old }
    {
        if is_first_made(&self.parts) {
            if let Part::Made(bytes) = self.parts.remove(0) {
                self.output = bytes;
                self.output_at = 0;
            }
        }
    }

    /// Gives the next piece to the desk.
    fn feed_some<N: Network, R: WorkingResponder<Work = W>>(
        &mut self,
        alloc: Global,
        c: u32,
        net: &mut N,
        socket: &N::Socket,
        desk: &mut Desk<R>,
    ) -> Turned
        requires ready { IsReady self.old }
        requires some { 0 < length (unfed self.old) }
        ensures { AddsSome (N.history net.old) (N.history net.new)
            (IsTurn R.Responder R.owes c (N.name socket.now) desk.old self.old result desk.new self.new) }
    {
        let part = first_part(rest_from(&self.input, self.input_at));
        let count = part.len();
        let Ok(piece) = Vec::from_slice(alloc, part) else {
            close(desk, c);
            return refuse(net, socket, DeskFault::Memory);
        };
        match desk.begin(c, piece) {
            Ok(Owing { parts, ends }) => {
                self.fed_at = self.input_at;
                self.input_at += count;
                self.output = Vec::new(alloc);
                self.output_at = 0;
                self.parts = parts;
                self.ends = ends;
                self.take_made();
                Turned::Fed
            }
            Err(fault) => refuse(net, socket, fault),
        }
    }

    /// Keeps what was read.
    fn keep<N: Network, R: WorkingResponder<Work = W>>(
        &mut self,
        alloc: Global,
        c: u32,
        piece: &[u8],
        net: &mut N,
        socket: &N::Socket,
        desk: &mut Desk<R>,
    ) -> Turned
        requires idle { IsIdle self.old }
        requires piece { IsPiece piece.now }
        ensures { AddsSome (N.history net.old) (N.history net.new)
            (λ told. IsTurn R.Responder R.owes c (N.name socket.now) desk.old self.old result desk.new self.new (gave (N.name socket.now) piece.now ∷ told)) }
    {
        let Ok(input) = Vec::from_slice(alloc, piece) else {
            close(desk, c);
            return refuse(net, socket, DeskFault::Memory);
        };
        self.fed_at = 0;
        self.input_at = 0;
        self.input = input;
        Turned::Took
    }

    /// One read.
    fn read_some<N: Network, R: WorkingResponder<Work = W>>(
        &mut self,
        alloc: Global,
        c: u32,
        net: &mut N,
        socket: &N::Socket,
        desk: &mut Desk<R>,
    ) -> Turned
        requires { IsIdle self.old }
        ensures { AddsSome (N.history net.old) (N.history net.new)
            (IsTurn R.Responder R.owes c (N.name socket.now) desk.old self.old result desk.new self.new) }
    {
        let mut buffer = [0; PIECE_LEN];
        match net.read(socket, &mut buffer) {
            Ok(0) => {
                close(desk, c);
                Turned::Over(Ending::PeerEnded)
            }
            Ok(count) => self.keep(alloc, c, &buffer[..count], net, socket, desk),
            Err(error) => {
                if is_blocked(&error) {
                    return Turned::Waits;
                }
                close(desk, c);
                Turned::Over(Ending::ReadFailed)
            }
        }
    }

    /// Does one thing. If bytes are at hand, it is a write. Otherwise, if a reply is owed, it is worked on, by so many units of work at most.
    /// Otherwise, if a reply ended the connection, the connection is over. Otherwise, if bytes were read that the desk has not taken, the desk
    /// takes those up to the first empty line. Otherwise it is a read.
    pub fn turn<N: Network, R: WorkingResponder<Work = W>>(
        &mut self,
        alloc: Global,
        c: u32,
        budget: u32,
        net: &mut N,
        socket: &N::Socket,
        desk: &mut Desk<R>,
        meter: &mut R::Meter,
    ) -> Turned
        requires { 0 < budget }
        ensures bounded { R.spent meter.new ≤ R.spent meter.old + budget * worked_by result }
        ensures less { GetsLess R.remaining result self.old self.new }
        ensures turn { AddsSome (N.history net.old) (N.history net.new)
            (IsTurn R.Responder R.owes c (N.name socket.now) desk.old self.old result desk.new self.new) }
    {
        if self.output_at < self.output.len() {
            return self.write_some(c, net, socket, desk);
        }
        if !self.parts.is_empty() {
            return self.work_some(alloc, c, budget, net, socket, desk, meter);
        }
        if self.ends {
            return Turned::Over(Ending::WeEnded);
        }
        if self.input_at < self.input.len() {
            return self.feed_some(alloc, c, net, socket, desk);
        }
        self.read_some(alloc, c, net, socket, desk)
    }
}
