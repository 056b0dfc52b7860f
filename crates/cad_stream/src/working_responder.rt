//! What answers requests in pieces of work.

use crate::responder::Responder;
use cad_versions::RegisterFault;
use httparse::spans::{HeaderSpan, RequestSpans};
use std::alloc::{AllocError, Global};

/// A reply, or the work that is left until it is made.
#[derive(Debug, Drop)]
pub enum Part<W> {
    /// The reply, head and body.
    Made(Vec<u8>),
    /// What is left to do for it.
    Left(W),
}

/// A request whose answer was begun.
#[derive(Debug, Drop)]
pub struct Begun<W> {
    /// Its reply, or the work that is left for it.
    pub part: Part<W>,
    /// Whether the rules end the connection after the reply.
    pub ends: bool,
}

/// A responder whose answers are made in pieces. What a request is answered is fixed when it is begun: the work that is left is a value of its
/// own, which no command and no other request changes.
pub trait WorkingResponder: Responder {
    ghost use Rattle.std.specs.Prelude.{◌≡◌, ◌+◌, ◌≤◌, ◌<◌, ℕ, List, IfOk};
    ghost use Rattle.httparse.specs.Spans.{IsRequestWithin};
    ghost use Rattle.cad_head.specs.Request.{request_at};
    ghost use Rattle.cad_stream.specs.Answering.{AnsweredBy};
    ghost use Rattle.cad_stream.specs.Beginning.{told, told_begun, ends_begun, IfLeft};

    /// What is left to do for a request.
    type Work: Drop;

    // The reply that it owes.
    ghost owes: { Self.Work → List ℕ };

    // How much is left to do for it, at most.
    ghost remaining: { Self.Work → ℕ };

    /// What counts the units of work that were done.
    type Meter;

    // How many were done.
    ghost spent: { Self.Meter → ℕ };

    /// Begins to answer the request that `spans` show in the bytes of a head. What is owed then is its answer.
    fn begin(
        &mut self,
        bytes: &[u8],
        headers: &[HeaderSpan],
        spans: &RequestSpans,
    ) -> Result<Begun<Self::Work>, RegisterFault>
        requires { IsRequestWithin bytes.now headers.now spans.now }
        ensures { AnsweredBy Self.Responder.stands_for Self.Responder.counts Self.Responder.lives Self.Responder.fails (told_begun owes) ends_begun
            Self.Responder.replies Self.Responder.closes Self.Responder.asks Self.Responder.seeks Self.Responder.fails_to_answer Self.Responder.refuses_answer Self.Responder.damaged_for_answer Self.Responder.remains
            self.old (request_at bytes.now headers.now spans.now) result self.new };

    /// Goes on with it, by so many units of work at most. It owes what it owed, and less is left to do, so the reply is made after some of
    /// these calls. An error means out of memory.
    fn go_on(
        alloc: Global,
        work: Self::Work,
        budget: u32,
        meter: &mut Self::Meter,
    ) -> Result<Part<Self::Work>, AllocError>
        requires some { 0 < budget }
        ensures owes { IfOk result (λ part. told owes part ≡ owes work) }
        ensures smaller { IfOk result (λ part. IfLeft part (λ next. remaining next < remaining work)) }
        ensures bounded { spent meter.new ≤ spent meter.old + budget };
}
