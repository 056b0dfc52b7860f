//! What is printed for a line.

ghost use Rattle.std.specs.Prelude.{◌≡◌, Result, Err, IsErr};
ghost use Rattle.cad_desk.specs.Desks.{Steps};
ghost use Rattle.cad_desk.specs.declared.event.Event.{Event as EventOf};
ghost use Rattle.cad_desk.specs.declared.event.Reply.{Reply as ReplyOf};
ghost use Rattle.cad_desk.specs.declared.fault.DeskFault.{DeskFault as FaultOf};
ghost use Rattle.cad_desk.specs.declared.fault.DeskFault.TheVariants as fault_of;
ghost use Rattle.test_support.specs.declared.answers.Memory.TheVariants.{IsAmple};
ghost use Rattle.test_support.specs.declared.lines.Line.TheVariants as line_of;

use crate::bytes::json_of;
use crate::lines::Line;
use crate::served::answer_served;
use cad_desk::{Desk, DeskFault, Reply};
use cad_stream::Responder;
use std::alloc::{AllocError, Global};

/// Whether memory may run out for a line.
#[derive(Clone, Copy, Debug, PartialEq, Eq)]
pub enum Memory {
    /// Out of memory is an answer like any other.
    MayBeWanting,
    /// Out of memory is reported by `Err`.
    IsAmple,
}

/// The text of a refusal by the desk.
pub(crate) fn refusal(alloc: Global, fault: DeskFault, memory: Memory) -> Result<String, AllocError>
    ensures { memory ≡ IsAmple → fault ≡ fault_of.Memory → IsErr result }
{
    if fault == DeskFault::Memory && memory == Memory::IsAmple {
        return Err(AllocError);
    }
    let mut text = format!(in alloc; "{} {}", fault.number(), fault.name())?;
    if let DeskFault::Register(cause) = fault {
        text.push_str(" ")?;
        text.push_str(cause.name())?;
    }
    Ok(text)
}

fn told(alloc: Global, reply: Reply) -> Result<String, AllocError> {
    match reply {
        Reply::Opened => String::from_str(alloc, "Opened"),
        Reply::Closed => String::from_str(alloc, "Closed"),
        Reply::Entered(revision) => format!(in alloc; "Entered {revision}"),
        Reply::Sent { bytes, ends } => {
            let end = if ends { " ends" } else { "" };
            format!(in alloc; "Sent {}{end}", json_of(alloc, bytes.as_slice())?.as_str())
        }
    }
}

/// What is printed for a desk's answer to an event. No clause says which text it is: the cases of `cad_cases` compare it.
pub fn answer_event(
    alloc: Global,
    answer: Result<Reply, DeskFault>,
    memory: Memory,
) -> Result<String, AllocError>
    ensures { memory ≡ IsAmple → answer ≡ Err fault_of.Memory → IsErr result }
{
    match answer {
        Ok(reply) => told(alloc, reply),
        Err(fault) => refusal(alloc, fault, memory),
    }
}

/// Does what a line asks for, and returns what is printed for it. No clause says which text it is: the cases of `cad_cases` and
/// `cad_register_cases` compare it.
pub fn answer<R: Responder>(
    alloc: Global,
    desk: &mut Desk<R>,
    line: Line,
    memory: Memory,
) -> Result<String, AllocError>
    ensures { (event : EventOf) → line ≡ line_of.Event event →
        (reply : Result ReplyOf FaultOf) × Steps R.Responder desk.old event reply desk.new }
{
    match line {
        Line::Serve(served) => answer_served(alloc, desk, &served, memory),
        Line::Event(event) => answer_event(alloc, desk.step(event), memory),
    }
}
