//! The answers to the requests of the cases.

ghost use Rattle.std.specs.Prelude.{◌≡◌, IfOk};
ghost use Rattle.test_support.specs.Echoes.{echo as echo_of};

use crate::echoing::{Echoing, Units, begun};
use cad_head::closes_connection;
use cad_memory_ledger::{MemoryLedger, MemoryReading};
use cad_stream::{Answer, Begun, JournalResponder, Part, Responder, Summary, WorkingResponder};
use cad_versions::{Command, JournalLedger, Ledger, RegisterFault};
use httparse::spans::{HeaderSpan, RequestSpans};
use std::alloc::{AllocError, Global};

/// Answers each request with its method, its target and the revision in force.
#[derive(Drop)]
pub struct Echo {
    ledger: MemoryLedger,
    alloc: Global,
}

impl Echo {
    ghost use Rattle.std.specs.Prelude.{List, [], length};
    ghost use Rattle.cad_versions.specs.declared.command.Command.{Command as CommandOf};
    ghost use Rattle.test_support.specs.Echoes.{StandsFor};

    /// It holds no commands.
    pub fn new(alloc: Global) -> Echo
        ensures { StandsFor result [] }
    {
        Echo {
            ledger: MemoryLedger::new(alloc),
            alloc,
        }
    }

    /// How many commands it holds.
    pub fn revision(&self) -> u64
        ensures { (commands : List CommandOf) → StandsFor self.now commands → result ≡ length commands }
    {
        self.ledger.revision()
    }
}

/// The method, the target and the revision, as a line.
fn echo_line(
    alloc: Global,
    method: &[u8],
    target: &[u8],
    revision: u64,
) -> Result<Vec<u8>, AllocError>
    ensures { IfOk result (λ text. text.items ≡ echo_of method.now target.now revision) }
{
    let mut text = Vec::new(alloc);
    text.extend_from_slice(method)?;
    text.extend_from_slice(b" ")?;
    text.extend_from_slice(target)?;
    text.extend_from_slice(b" at revision ")?;
    text.extend_from_slice(revision.to_string(alloc)?.as_bytes())?;
    text.extend_from_slice(b"\n")?;
    Ok(text)
}

impl Responder for Echo {
    ghost use Rattle.std.specs.Prelude.{codes};
    ghost use Rattle.std.proofs.Common.{◌≡◌, refl, ◌∙◌};
    ghost use Rattle.cad_versions.specs.declared.fault.RegisterFault.TheVariants.{NotARegister};
    ghost use Rattle.cad_memory_ledger.specs.Ledgers.{IsMemory, memory_keeps};
    ghost use Rattle.cad_head.specs.Request.{closes_connection as closes_connection_of};
    ghost use Rattle.test_support.specs.Echoes.{StandsFor, IsReply, lost_keeps};

    ghost stands_for = { StandsFor };

    ghost counts = { λ _. Unit {0} };

    ghost lives = { λ _. Unit {0} };

    ghost fails = { λ _ _. ⊥ };

    ghost replies = { IsReply };

    ghost closes = { closes_connection_of };

    ghost bad_head = { codes "no request\n" };

    ghost asks = { λ _. Unit {0} };

    ghost seeks = { λ _ _. Unit {0} };

    ghost fails_to_answer = { λ _ _ fault. fault ≡ NotARegister };

    ghost fails_to_enter = { λ _ _. IsMemory };

    ghost refuses_answer = { λ _ _ _. ⊥ };

    ghost refuses_command = { λ _ _ _ _. ⊥ };

    ghost damaged_for_answer = { λ _ _ _ _ _. ⊥ };

    ghost damaged_for_command = { λ _ _ _ _ _. ⊥ };

    ghost remains = { λ old new. new ≡ old };

    ghost answer_keeps = { λ _ _. lost_keeps };

    ghost seeks_asks = { λ _ _ seeks. seeks };

    ghost enter_keeps = { λ _ _. memory_keeps };

    ghost remains_here = { λ _. refl };

    ghost remains_then = { λ _ _ _ first later. later ∙ first };

    ghost fails_before = { λ _ _ _ _ fails. fails };

    fn answer(
        &mut self,
        bytes: &[u8],
        headers: &[HeaderSpan],
        spans: &RequestSpans,
    ) -> Result<Answer, RegisterFault> {
        let target = spans.path.of(bytes);
        if target == b"/lost".as_slice() {
            return Err(RegisterFault::NotARegister);
        }
        if target == b"/full".as_slice() {
            return Err(RegisterFault::Memory);
        }
        let ends = closes_connection(bytes, headers, spans);
        let method = spans.method.of(bytes);
        let bytes = echo_line(self.alloc, method, target, self.ledger.revision())?;
        Ok(Answer { bytes, ends })
    }

    fn bad_head(&self) -> Result<Vec<u8>, AllocError> {
        Vec::from_slice(self.alloc, b"no request\n")
    }

    fn enter(&mut self, command: Command) -> Result<u64, RegisterFault> {
        self.ledger.apply(command)
    }

    fn check(&mut self, command: &Command) -> Result<u64, RegisterFault> {
        self.ledger.check(command)
    }

    #[tactic(auto, using(crate::specs::Echoes::one_echo))]
    fn one_reply() {}
}

impl WorkingResponder for Echo {
    ghost use Rattle.test_support.specs.Echoes.{owed, left_of, done_in};

    type Work = Echoing;

    ghost owes = { owed };

    ghost remaining = { left_of };

    type Meter = Units;

    ghost spent = { done_in };

    fn begin(
        &mut self,
        bytes: &[u8],
        headers: &[HeaderSpan],
        spans: &RequestSpans,
    ) -> Result<Begun<Echoing>, RegisterFault> {
        let Answer { bytes: reply, ends } = self.answer(bytes, headers, spans)?;
        let part = begun(reply, spans.path.of(bytes));
        Ok(Begun { part, ends })
    }

    fn go_on(
        _alloc: Global,
        work: Echoing,
        budget: u32,
        meter: &mut Units,
    ) -> Result<Part<Echoing>, AllocError> {
        work.go_on(budget, meter)
    }
}

impl JournalResponder for Echo {
    ghost use Rattle.cad_memory_ledger.specs.Ledgers.{IsMemory, memory_keeps};
    ghost use Rattle.cad_memory_ledger.specs.Readings.{HasRead, behind_of as reading_behind, newest_of as reading_newest};

    type Reading = MemoryReading;

    ghost has_read = { HasRead };

    ghost behind_of = { reading_behind };

    ghost newest_of = { reading_newest };

    ghost rows_left = { λ _. 0 };

    ghost fails_to_read = { λ _. IsMemory };

    ghost refuses_reading = { λ _ _ _ _. ⊥ };

    ghost damaged_for_reading = { λ _ _ _ _ _ _. ⊥ };

    ghost read_keeps = { λ _. memory_keeps };

    ghost were_accepted = { λ _ _ stands. stands.accepted };

    ghost readings_are_within = { λ _ _ has. (has.behind, has.newest) };

    fn begin_journal(&self, behind: u64) -> Result<MemoryReading, RegisterFault> {
        self.ledger.begin_journal(behind)
    }

    fn read_on(&mut self, reading: &mut MemoryReading, most: u32) -> Result<bool, RegisterFault> {
        self.ledger.read_on(reading, most)
    }

    fn commands(reading: MemoryReading, alloc: Global) -> Result<Vec<Command>, RegisterFault> {
        MemoryLedger::commands(reading, alloc)
    }

    fn summary(&self) -> Summary {
        Summary {
            revision: self.ledger.revision(),
            versions: None,
            chain: None,
            highest_object: None,
            oldest: None,
        }
    }

    fn readings_stay() {
        MemoryLedger::readings_stay();
    }
}
