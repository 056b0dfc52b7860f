//! The commands of a register, gathered from the versions that it stores.

ghost use Rattle.std.specs.Prelude.{◌≡◌, ◌≢◌, ◌<◌, ◌+◌, ℕ, List, [], ◌∷◌, ◌++◌, length, map, Some, None, IfOk, MatchOption};
ghost use Rattle.cad_versions.specs.declared.command.Command.{Command as CommandOf};
ghost use Rattle.cad_versions.specs.declared.command.Command.TheVariants.{Retire};
ghost use Rattle.cad_versions.specs.Entries.{Entry};
ghost use Rattle.cad_versions.specs.VersionedObject.{VersionedObject};
ghost use Rattle.cad_register.specs.Journal.{beginning as begins, commands_behind};
ghost use Rattle.cad_register.specs.inner.Gathering.{changed, retired, begun_over, ended_in, slots_of, Gathers};

use crate::slots::Slots;
use cad_day::Day;
use cad_versions::{Body, Command, ObjectId, Version};
use std::alloc::{AllocError, Global};

/// The commands of some revisions, as far as the versions that were noted show them: one slot for each revision.
#[derive(Drop)]
pub(crate) struct Gathering {
    behind: u32,
    slots: Slots,
}

/// The command with which a version began.
fn beginning(object: ObjectId, number: u32, first: Day, body: Body) -> Command
    ensures { result ≡ begins (record { object = object; number = number; first = first; last = None; body = body }) }
{
    if number == 1 {
        Command::Enter {
            object,
            first,
            body,
        }
    } else {
        Command::Amend {
            object,
            first,
            body,
        }
    }
}

impl Gathering {
    /// No version was noted yet for the `count` revisions after `behind`.
    pub(crate) fn new(alloc: Global, behind: u32, count: u32) -> Result<Gathering, AllocError>
        ensures { IfOk result (Gathers behind count []) }
    {
        let slots = Slots::new(alloc, count)?;
        Ok(Gathering { behind, slots })
    }

    /// The slot of a revision.
    fn place_of(&self, revision: u32) -> Option<usize>
        ensures { MatchOption result ((i : ℕ) → i < length (slots_of self.now.slots) → self.now.behind + 1 + i ≢ revision)
            (λ at. (at < length (slots_of self.now.slots)) × (self.now.behind + 1 + at ≡ revision)) }
    {
        if revision <= self.behind {
            return None;
        }
        let at = (revision - self.behind - 1) as usize;
        if at < self.slots.len() {
            Some(at)
        } else {
            None
        }
    }

    /// The object was retired at the revision, or its version closed for the next one.
    fn end(&mut self, revision: u32, object: ObjectId, last: Day)
        ensures behind { self.new.behind ≡ self.old.behind }
        ensures slots { slots_of self.new.slots ≡ changed self.old.behind revision (retired (Retire object last)) (slots_of self.old.slots) }
    {
        let Some(at) = self.place_of(revision) else {
            return;
        };
        if self.slots.is_empty(at) {
            self.slots.put(at, Command::Retire { object, last });
        }
    }

    /// The same, if the version was closed and has a last day.
    fn end_if_closed(&mut self, closed: Option<u32>, object: ObjectId, last: Option<Day>)
        ensures behind { self.new.behind ≡ self.old.behind }
        ensures slots { (v : VersionedObject) (entered : ℕ) → v.object ≡ object → v.last ≡ last →
            slots_of self.new.slots ≡ ended_in self.old.behind (record { version = v; entered = entered; closed = closed }) (slots_of self.old.slots) }
    {
        let Some(closed) = closed else {
            return;
        };
        let Some(last) = last else {
            return;
        };
        self.end(closed, object, last);
    }

    /// A version began at the revision with this command.
    fn begin(&mut self, revision: u32, command: Command)
        ensures behind { self.new.behind ≡ self.old.behind }
        ensures slots { slots_of self.new.slots ≡ changed self.old.behind revision (begun_over command) (slots_of self.old.slots) }
    {
        let Some(at) = self.place_of(revision) else {
            drop(command);
            return;
        };
        if self.slots.is_open(at) {
            self.slots.put(at, command);
        } else {
            drop(command);
        }
    }

    /// One more version, with the revision that entered it and the one that closed it. They may come in any order.
    pub(crate) fn note(&mut self, version: Version, entered: u32, closed: Option<u32>)
        ensures behind { self.new.behind ≡ self.old.behind }
        ensures notes { (behind count : ℕ) (entries : List Entry) → Gathers behind count entries self.old →
            Gathers behind count (entries ++ record { version = version; entered = entered; closed = closed } ∷ []) self.new }
    {
        let Version {
            object,
            number,
            first,
            last,
            body,
        } = version;
        self.end_if_closed(closed, object, last);
        self.begin(entered, beginning(object, number, first, body));
    }

    /// The commands, if there is one for each revision.
    pub(crate) fn commands(self) -> Option<Vec<Command>>
        ensures held { MatchOption result ((commands : List CommandOf) → map Some commands ≢ slots_of self.slots)
            (λ commands. map Some commands.items ≡ slots_of self.slots) }
        ensures given { (behind count : ℕ) (entries : List Entry) → Gathers behind count entries self →
            MatchOption result ((commands : List CommandOf) → map Some commands ≢ commands_behind behind count entries)
            (λ commands. map Some commands.items ≡ commands_behind behind count entries) }
    {
        let Gathering { behind: _, slots } = self;
        slots.commands()
    }
}
