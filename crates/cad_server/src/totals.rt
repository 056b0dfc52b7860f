//! What is known of the commands together: the highest number of an object, and their chain.

ghost use Rattle.std.specs.Prelude.{◌≡◌, List, map, max};
ghost use Rattle.cad_versions.specs.Entries.{version_in};
ghost use Rattle.cad_versions.specs.Objects.{object_number};
ghost use Rattle.cad_versions.specs.VersionedObject.{VersionedObject};
ghost use Rattle.cad_versions.specs.Versions.{versions_after};
ghost use Rattle.cad_stream.specs.Summaries.{highest_object};

use cad_commands::Chain;
use cad_versions::{Command, ObjectId, StoredVersion};
use std::alloc::Global;

/// The highest number of an object of these versions, 0 if there are none.
pub(crate) fn highest_in(versions: &[StoredVersion]) -> u64
    ensures { result ≡ highest_object (map version_in versions.now) }
{
    let mut highest = 0;
    for stored in versions {
        highest = with_object(highest, stored.version.object);
    }
    highest
}

/// The higher one of this number and that of an object.
fn with_object(highest: u64, object: ObjectId) -> u64
    ensures { result ≡ max (object_number object) highest }
{
    u64::from(object.number()).max(highest)
}

/// The highest number after a command, from the one before it.
pub(crate) fn highest_then(highest: u64, command: &Command) -> u64
    ensures { (versions : List VersionedObject) → highest ≡ highest_object versions → result ≡ highest_object (versions_after versions command.now) }
{
    match command {
        Command::Enter { object, .. } => with_object(highest, *object),
        Command::Amend { object, .. } => with_object(highest, *object),
        Command::Retire { .. } => highest,
    }
}

/// What is known of the commands together.
#[derive(Clone, Copy, Debug, PartialEq, Eq)]
pub(crate) struct Totals {
    /// The highest number of an object, 0 if there is none.
    pub(crate) highest_object: Option<u64>,
    /// The chain of the commands.
    pub(crate) chain: Option<Chain>,
}

impl Totals {
    ghost use Rattle.std.specs.Prelude.{List, [], ◌∷◌, ◌++◌};
    ghost use Rattle.cad_versions.specs.declared.command.Command.{Command as CommandOf};
    ghost use Rattle.cad_server.specs.Keeping.{AreTotalsOf, KnowsChain, KnowsHighest};

    /// Nothing is known.
    pub(crate) fn unknown() -> Totals
        ensures { (commands : List CommandOf) → AreTotalsOf commands result }
    {
        Totals {
            highest_object: None,
            chain: None,
        }
    }

    /// The highest number of an object after the command, if the one before it is known.
    fn highest_after(&self, command: &Command) -> Option<u64>
        ensures { (commands : List CommandOf) → AreTotalsOf commands self.now → KnowsHighest (commands ++ command.now ∷ []) result }
    {
        let highest = self.highest_object?;
        Some(highest_then(highest, command))
    }

    /// The chain after the command, if the one before it is known and there is memory.
    fn chain_after(&self, alloc: Global, command: &Command) -> Option<Chain>
        ensures { (commands : List CommandOf) → AreTotalsOf commands self.now → KnowsChain (commands ++ command.now ∷ []) result }
    {
        let chain = self.chain?;
        chain.then(alloc, command).ok()
    }

    /// What is known after the command.
    pub(crate) fn with(&self, alloc: Global, command: &Command) -> Totals
        ensures { (commands : List CommandOf) → AreTotalsOf commands self.now → AreTotalsOf (commands ++ command.now ∷ []) result }
    {
        Totals {
            highest_object: self.highest_after(command),
            chain: self.chain_after(alloc, command),
        }
    }
}
