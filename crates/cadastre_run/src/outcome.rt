//! How a run ended: its status, and the line that reports it.

use cad_desk::DeskFault;
use cad_office::OfficeFault;
use cad_serve::{ADDRESS, DESK, Ending, Fault, Message, REGISTER, SERVING, ServeFault, status};
use cad_versions::RegisterFault;
use std::io::ErrorKind;

/// How the program is called.
const USAGE: &str = "usage: cadastre sample | office FILE | ask FILE | serve FILE ADDRESS COUNT";

/// How a run ended.
#[derive(Clone, Copy, Debug, PartialEq, Eq)]
pub enum Outcome {
    /// All went well.
    Good,
    /// A line of the office was refused.
    Refused,
    /// Reading or writing failed.
    Serve(ServeFault),
    /// Reading or writing failed in the office, or there were too many reads.
    Office(OfficeFault),
    /// The connection was refused.
    Desk(DeskFault),
    /// There was no register or no desk over it, or its database refused a request.
    Register(RegisterFault),
    /// The program listened, and this is its status. What went wrong was reported.
    Listened(u8),
    /// The arguments are wrong.
    Usage,
    /// The address cannot be read or bound.
    Address,
}

impl Outcome {
    ghost use Rattle.std.specs.Prelude.{◌≡◌};
    ghost use Rattle.cad_serve.specs.Statuses.{message_line};
    ghost use Rattle.cadastre_run.specs.Outcomes.{line_of, office_outcome_of, outcome_of, outcome_without_arguments, status_of};

    /// How a run ends if its command line cannot be read for this cause.
    pub fn without_arguments(cause: ErrorKind) -> Outcome
        ensures { result ≡ outcome_without_arguments cause }
    {
        match cause {
            ErrorKind::OutOfMemory => Outcome::Register(RegisterFault::Memory),
            _ => Outcome::Usage,
        }
    }

    /// How serving one connection ends a run. A refusal of the database is reported as the register's fault.
    pub fn of_serving(served: Result<Ending, ServeFault>) -> Outcome
        ensures { result ≡ outcome_of served }
    {
        match served {
            Ok(Ending::PeerEnded | Ending::WeEnded) => Outcome::Good,
            Ok(Ending::Refused(DeskFault::Register(RegisterFault::Store))) => Outcome::Register(
                RegisterFault::Store,
            ),
            Ok(Ending::Refused(fault)) => Outcome::Desk(fault),
            Err(fault) => Outcome::Serve(fault),
        }
    }

    /// How the office ends a run. Its result says whether no line was refused.
    pub fn of_office(kept: Result<bool, OfficeFault>) -> Outcome
        ensures { result ≡ office_outcome_of kept }
    {
        match kept {
            Ok(true) => Outcome::Good,
            Ok(false) => Outcome::Refused,
            Err(OfficeFault::Register) => Outcome::Register(RegisterFault::Store),
            Err(fault) => Outcome::Office(fault),
        }
    }

    /// The status of the process.
    pub fn status(self) -> u8
        ensures { result ≡ status_of self }
    {
        match self {
            Outcome::Good => status::GOOD,
            Outcome::Refused | Outcome::Serve(_) | Outcome::Office(_) | Outcome::Desk(_) =>
                status::FAILED,
            Outcome::Listened(told) => told,
            Outcome::Usage => status::WRONG_ARGUMENTS,
            Outcome::Register(_) => status::NO_REGISTER,
            Outcome::Address => status::NO_ADDRESS,
        }
    }

    /// The message about the run on standard error.
    ///
    /// Refused lines were already reported on standard output, and what went wrong while the program listened on standard error.
    pub fn message(self) -> Message
        ensures { message_line result ≡ line_of self }
    {
        let (kind, number, name) = match self {
            Outcome::Good | Outcome::Refused | Outcome::Listened(_) => return Message::Nothing,
            Outcome::Usage => return Message::Line(USAGE),
            Outcome::Address => return Message::Line(ADDRESS),
            Outcome::Serve(fault) => (SERVING, fault.number(), fault.name()),
            Outcome::Office(fault) => (SERVING, fault.number(), fault.name()),
            Outcome::Desk(fault) => (DESK, fault.number(), fault.name()),
            Outcome::Register(fault) => (REGISTER, fault.number(), fault.name()),
        };
        Message::Fault(Fault { kind, number, name })
    }
}
