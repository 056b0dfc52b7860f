//! Whether a command is accepted.

ghost use Rattle.std.specs.Prelude.{◌≡◌};
ghost use Rattle.std.specs.Option.{option_copied};
ghost use Rattle.cad_versions.specs.Command.{body_added};
ghost use Rattle.cad_versions.specs.Refusals.{refuses_object};

use crate::body::{Body, Class};
use crate::command::Command;
use crate::fault::RegisterFault;
use cad_day::Day;

impl Command {
    /// What the new version says, if the command adds one.
    pub fn body(&self) -> Option<&Body>
        ensures { option_copied result ≡ body_added self.now }
    {
        match self {
            Command::Enter { body, .. } => Some(body),
            Command::Amend { body, .. } => Some(body),
            Command::Retire { .. } => None,
        }
    }

    /// Why an object refuses the command. `class` is its class, if it was entered, and `open_since` the first day of its open version, if
    /// it has one.
    pub fn refused_by_object(
        &self,
        class: Option<Class>,
        open_since: Option<Day>,
    ) -> Option<RegisterFault>
        ensures { result ≡ refuses_object class open_since self.now }
    {
        let Some(class) = class else {
            return match self {
                Command::Enter { .. } => None,
                _ => Some(RegisterFault::UnknownObject),
            };
        };
        match self {
            Command::Enter { .. } => Some(RegisterFault::KnownObject),
            Command::Amend { body, .. } if body.class() != class => Some(RegisterFault::OtherClass),
            Command::Amend { first, .. } => match open_since {
                None => Some(RegisterFault::Retired),
                Some(begun) if first.number() <= begun.number() => Some(RegisterFault::DayNotAfter(
                    begun,
                )),
                Some(_) => None,
            },
            Command::Retire { last, .. } => match open_since {
                None => Some(RegisterFault::Retired),
                Some(begun) if last.number() < begun.number() => Some(RegisterFault::DayNotAfter(
                    begun,
                )),
                Some(_) => None,
            },
        }
    }
}
