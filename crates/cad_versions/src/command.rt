//! What the land office asks for.

ghost use Rattle.std.specs.Prelude.{◌≡◌};
ghost use Rattle.cad_versions.specs.Command.{object_named};

use crate::body::Body;
use crate::object_id::ObjectId;
use cad_day::Day;

/// One change of the register.
#[derive(Debug, Drop)]
pub enum Command {
    /// Begins an object with version 1, which holds from `first` on.
    Enter {
        /// The object, which was never entered before.
        object: ObjectId,
        /// The first day of version 1.
        first: Day,
        /// What version 1 says.
        body: Body,
    },
    /// Ends the object's open version on the day before `first`, and begins the next one.
    Amend {
        /// The object, which has an open version.
        object: ObjectId,
        /// The first day of the next version.
        first: Day,
        /// What the next version says.
        body: Body,
    },
    /// Ends the object's open version on `last`.
    Retire {
        /// The object, which has an open version.
        object: ObjectId,
        /// The last day of that version.
        last: Day,
    },
}

impl Command {
    /// The object that the command enters, amends or retires.
    pub fn object(&self) -> ObjectId
        ensures { result ≡ object_named self.now }
    {
        match self {
            Command::Enter { object, .. } => *object,
            Command::Amend { object, .. } => *object,
            Command::Retire { object, .. } => *object,
        }
    }
}
