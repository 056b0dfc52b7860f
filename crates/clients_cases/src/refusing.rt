//! Answers the requests of hosted cases, and refuses commands for one object.

ghost use Rattle.clients_cases.specs.Refusing.{StandsFor};

use cad_memory_ledger::MemoryReading;
use cad_stream::{Answer, Begun, JournalResponder, Part, Responder, Summary, WorkingResponder};
use cad_versions::{Command, RegisterFault};
use httparse::spans::{HeaderSpan, RequestSpans};
use std::alloc::{AllocError, Global};
use test_support::{Echo, Echoing, Units};

/// The object whose commands the database refuses.
const REFUSED: u32 = 6;

/// The revision after which the database refuses to read a journal.
const UNREAD: u64 = 6;

/// The revision after which a journal is not read since the database holds no register.
const UNFIT: u64 = 5;

/// A journal whose rows are read in turns, as many as it has commands.
#[derive(Drop)]
pub(crate) struct SlowReading {
    reading: MemoryReading,
    behind: u64,
    left: u64,
}

/// Answers like `Echo`, but refuses each command for one object and the rows of one journal as a database would.
#[derive(Drop)]
pub(crate) struct Refusing {
    echo: Echo,
}

impl Refusing {
    ghost use Rattle.std.specs.Prelude.{[]};

    /// It holds no commands.
    pub(crate) fn new(alloc: Global) -> Refusing
        ensures { StandsFor result [] }
    {
        Refusing {
            echo: Echo::new(alloc),
        }
    }
}

impl Responder for Refusing {
    ghost use Rattle.std.specs.Prelude.{codes};
    ghost use Rattle.std.proofs.Common.{◌≡◌, refl, ◌∙◌};
    ghost use Rattle.cad_versions.specs.declared.fault.RegisterFault.TheVariants.{NotARegister};
    ghost use Rattle.cad_head.specs.Request.{closes_connection as closes_connection_of};
    ghost use Rattle.test_support.specs.Echoes.{IsReply, lost_keeps};
    ghost use Rattle.clients_cases.specs.Refusing.{FailsToEnter, IsOfRefused, refused_keeps};

    ghost stands_for = { StandsFor };

    ghost counts = { λ _. Unit {0} };

    ghost lives = { λ _. Unit {0} };

    ghost fails = { λ _ _. ⊥ };

    ghost replies = { IsReply };

    ghost closes = { closes_connection_of };

    ghost bad_head = { codes "no request\n" };

    ghost asks = { λ _. Unit {0} };

    ghost seeks = { λ _ _. Unit {0} };

    ghost fails_to_answer = { λ _ _ fault. fault ≡ NotARegister };

    ghost fails_to_enter = { λ _. FailsToEnter };

    ghost refuses_answer = { λ _ _ _. ⊥ };

    ghost refuses_command = { λ _ _ command _. IsOfRefused command };

    ghost damaged_for_answer = { λ _ _ _ _ _. ⊥ };

    ghost damaged_for_command = { λ _ _ _ _ _. ⊥ };

    ghost remains = { λ old new. new ≡ old };

    ghost answer_keeps = { λ _ _. lost_keeps };

    ghost seeks_asks = { λ _ _ seeks. seeks };

    ghost enter_keeps = { λ _. refused_keeps };

    ghost remains_here = { λ _. refl };

    ghost remains_then = { λ _ _ _ first later. later ∙ first };

    ghost fails_before = { λ _ _ _ _ fails. fails };

    fn answer(
        &mut self,
        bytes: &[u8],
        headers: &[HeaderSpan],
        spans: &RequestSpans,
    ) -> Result<Answer, RegisterFault> {
        self.echo.answer(bytes, headers, spans)
    }

    fn bad_head(&self) -> Result<Vec<u8>, AllocError> {
        self.echo.bad_head()
    }

    fn enter(&mut self, command: Command) -> Result<u64, RegisterFault> {
        if command.object().number() == REFUSED {
            return Err(RegisterFault::Store);
        }
        self.echo.enter(command)
    }

    fn check(&mut self, command: &Command) -> Result<u64, RegisterFault> {
        if command.object().number() == REFUSED {
            return Err(RegisterFault::Store);
        }
        self.echo.check(command)
    }

    #[tactic(auto, using(test_support::specs::Echoes::one_echo))]
    fn one_reply() {}
}

impl WorkingResponder for Refusing {
    ghost use Rattle.test_support.specs.Echoes.{owed, left_of, done_in};

    type Work = Echoing;

    ghost owes = { owed };

    ghost remaining = { left_of };

    type Meter = Units;

    ghost spent = { done_in };

    fn begin(
        &mut self,
        bytes: &[u8],
        headers: &[HeaderSpan],
        spans: &RequestSpans,
    ) -> Result<Begun<Echoing>, RegisterFault> {
        self.echo.begin(bytes, headers, spans)
    }

    fn go_on(
        alloc: Global,
        work: Echoing,
        budget: u32,
        meter: &mut Units,
    ) -> Result<Part<Echoing>, AllocError> {
        Echo::go_on(alloc, work, budget, meter)
    }
}

impl JournalResponder for Refusing {
    ghost use Rattle.clients_cases.specs.Refusing.{HasRead, FailsToRead, IsUnread, behind_of as reading_behind, newest_of as reading_newest, rows_left as reading_left, unread_keeps};

    type Reading = SlowReading;

    ghost has_read = { HasRead };

    ghost behind_of = { reading_behind };

    ghost newest_of = { reading_newest };

    ghost rows_left = { reading_left };

    ghost fails_to_read = { λ _. FailsToRead };

    ghost refuses_reading = { λ _ _ reading _. IsUnread reading };

    ghost damaged_for_reading = { λ _ _ _ _ _ _. ⊥ };

    ghost read_keeps = { λ _. unread_keeps };

    ghost were_accepted = { λ _ _ stands. stands.accepted };

    ghost readings_are_within = { λ _ _ has. (has.behind, has.newest) };

    fn begin_journal(&self, behind: u64) -> Result<SlowReading, RegisterFault> {
        let reading = self.echo.begin_journal(behind)?;
        let left = self.echo.revision();
        Ok(SlowReading {
            reading,
            behind,
            left,
        })
    }

    fn read_on(&mut self, reading: &mut SlowReading, most: u32) -> Result<bool, RegisterFault> {
        if reading.behind == UNREAD {
            return Err(RegisterFault::Store);
        }
        if reading.behind == UNFIT {
            return Err(RegisterFault::NotARegister);
        }
        reading.left = reading.left.saturating_sub(u64::from(most));
        Ok(reading.left == 0)
    }

    fn commands(reading: SlowReading, alloc: Global) -> Result<Vec<Command>, RegisterFault> {
        Echo::commands(reading.reading, alloc)
    }

    fn summary(&self) -> Summary {
        self.echo.summary()
    }

    fn readings_stay() {
        Echo::readings_stay();
    }
}
