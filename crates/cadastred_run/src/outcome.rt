//! How a run ended: its status, and the line that reports it.

use cad_event_loop::Stopped;
use cad_office::OfficeFault;
use cad_serve::{ADDRESS, Fault, Message, REGISTER, SERVING, status};
use cad_versions::RegisterFault;
use std::io::{ErrorKind, Result};

/// The usage.
pub const HELP: &str =
    "usage: cadastred [--chain] [--log] FILE ADDRESS OFFICE | --journal FILE | --check FILE | --help | --version";

/// How a run ended.
#[derive(Clone, Copy, Debug, PartialEq, Eq)]
pub enum Outcome {
    /// All went well.
    Good,
    /// The system refused what the run needs: memory, descriptors, the clock, waiting for sockets, or a write.
    Failed,
    /// There was no register or no desk over it, or its database refused what it was asked.
    Register(RegisterFault),
    /// The arguments are wrong.
    Usage,
    /// The address cannot be read or bound.
    Address,
    /// The office's socket cannot be bound.
    Office,
    /// A line would be refused.
    Refused,
    /// Reading lines or writing reports failed, or there were too many reads.
    Lines(OfficeFault),
}

impl Outcome {
    ghost use Rattle.std.specs.Prelude.{◌≡◌};
    ghost use Rattle.cadastred_run.specs.Hosting.{outcome_of_hosting};
    ghost use Rattle.cadastred_run.specs.Outcomes.{line_of, outcome_of_check, outcome_without_arguments, status_of};
    ghost use Rattle.cad_serve.specs.Statuses.{message_line};

    /// How a run ends if the system refuses the command line for this cause.
    pub fn without_arguments(cause: ErrorKind) -> Outcome
        ensures { result ≡ outcome_without_arguments cause }
    {
        match cause {
            ErrorKind::OutOfMemory => Outcome::Failed,
            _ => Outcome::Usage,
        }
    }

    /// How hosting ends a run.
    pub(crate) fn of_hosting(hosted: Result<Stopped>) -> Outcome
        ensures { result ≡ outcome_of_hosting hosted }
    {
        match hosted {
            Ok(Stopped::Asked) => Outcome::Good,
            Ok(Stopped::StoreRefused) => Outcome::Register(RegisterFault::Store),
            Ok(Stopped::RoundsSpent) | Err(_) => Outcome::Failed,
        }
    }

    /// How checking lines ends a run. Its result says whether no line would be refused.
    pub(crate) fn of_check(checked: std::result::Result<bool, OfficeFault>) -> Outcome
        ensures { result ≡ outcome_of_check checked }
    {
        match checked {
            Ok(true) => Outcome::Good,
            Ok(false) => Outcome::Refused,
            Err(OfficeFault::Register) => Outcome::Register(RegisterFault::Store),
            Err(fault) => Outcome::Lines(fault),
        }
    }

    /// The status of the process.
    pub fn status(self) -> u8
        ensures { result ≡ status_of self }
    {
        match self {
            Outcome::Good => status::GOOD,
            Outcome::Failed | Outcome::Refused | Outcome::Lines(_) => status::FAILED,
            Outcome::Usage => status::WRONG_ARGUMENTS,
            Outcome::Register(_) => status::NO_REGISTER,
            Outcome::Address | Outcome::Office => status::NO_ADDRESS,
        }
    }

    /// The line on standard error that reports it.
    pub fn message(self) -> Message
        ensures { message_line result ≡ line_of self }
    {
        match self {
            Outcome::Good | Outcome::Refused => Message::Nothing,
            Outcome::Failed => Message::Line("host: failed"),
            Outcome::Usage => Message::Line(HELP),
            Outcome::Address => Message::Line(ADDRESS),
            Outcome::Office => Message::Line("office"),
            Outcome::Lines(fault) => Message::Fault(Fault {
                kind: SERVING,
                number: fault.number(),
                name: fault.name(),
            }),
            Outcome::Register(fault) => Message::Fault(Fault {
                kind: REGISTER,
                number: fault.number(),
                name: fault.name(),
            }),
        }
    }
}
