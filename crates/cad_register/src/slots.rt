//! Slots for commands, some of which are empty.

ghost use Rattle.std.specs.Prelude.{◌≡◌, length, IfOk};
ghost use Rattle.cad_register.specs.inner.Slots.{missing_in};

use cad_day::Day;
use cad_versions::{Command, ObjectId};
use std::alloc::{AllocError, Global};

/// Slots for commands, some of which are empty. The commands of all slots are one vector from the beginning, so they are taken out at once,
/// however many they are.
#[derive(Drop)]
pub(crate) struct Slots {
    /// In an empty slot, a command that means nothing.
    commands: Vec<Command>,
    /// Whether the slot has a command.
    given: Vec<bool>,
    /// How many slots are empty.
    missing: usize,
    pub ghost even: { length commands.items ≡ length given.items },
    pub ghost counted: { missing ≡ missing_in given.items },
}

/// What the vector has in an empty slot.
fn nothing() -> Command {
    let object = ObjectId::new(1).unwrap();
    let last = Day::new(0).unwrap();
    Command::Retire { object, last }
}

/// What the vector has in this many empty slots.
fn no_commands(alloc: Global, count: u32) -> Result<Vec<Command>, AllocError>
    ensures { IfOk result (λ commands. length commands.items ≡ count) }
{
    let mut commands = Vec::with_capacity(alloc, count as usize)?;
    for at in 0..count {
        commands.push(nothing())?;
    }
    Ok(commands)
}

/// That this many slots are empty.
fn none_given(alloc: Global, count: u32) -> Result<Vec<bool>, AllocError>
    ensures even { IfOk result (λ given. length given.items ≡ count) }
    ensures missing { IfOk result (λ given. missing_in given.items ≡ count) }
{
    let mut given = Vec::with_capacity(alloc, count as usize)?;
    for at in 0..count {
        given.push(false)?;
    }
    Ok(given)
}

impl Slots {
    ghost use Rattle.std.specs.Prelude.{◌≢◌, ◌<◌, true, ℕ, List, [], map, set, get_or, Some, None, is_none, MatchOption};
    ghost use Rattle.cad_versions.specs.declared.command.Command.{Command as CommandOf};
    ghost use Rattle.cad_register.specs.Journal.{commands_behind};
    ghost use Rattle.cad_register.specs.inner.Gathering.{slots_of, takes_beginning};

    /// This many empty slots.
    pub(crate) fn new(alloc: Global, count: u32) -> Result<Slots, AllocError>
        ensures { IfOk result (λ slots. (behind : ℕ) → slots_of slots ≡ commands_behind behind count []) }
    {
        let commands = no_commands(alloc, count)?;
        let given = none_given(alloc, count)?;
        Ok(Slots {
            commands,
            given,
            missing: count as usize,
        })
    }

    /// How many there are.
    pub(crate) fn len(&self) -> usize
        ensures { result ≡ length (slots_of self.now) }
    {
        self.given.len()
    }

    /// Whether the slot has no command.
    pub(crate) fn is_empty(&self, at: usize) -> bool
        requires { at < length (slots_of self.now) }
        ensures { result ≡ is_none (get_or (slots_of self.now) at None) }
    {
        !self.given[at]
    }

    /// Whether the slot has no command that began a version.
    pub(crate) fn is_open(&self, at: usize) -> bool
        requires { at < length (slots_of self.now) }
        ensures { result ≡ takes_beginning (get_or (slots_of self.now) at None) }
    {
        !self.given[at] || matches!(self.commands[at], Command::Retire { .. })
    }

    /// The slot has a command from now on.
    fn give(&mut self, at: usize)
        requires { at < length self.old.given.items }
        ensures given { self.new.given.items ≡ set self.old.given.items at true }
        ensures commands { self.new.commands ≡ self.old.commands }
    {
        if !self.given[at] {
            self.missing -= 1;
            self.given[at] = true;
        }
    }

    /// Puts a command into a slot.
    pub(crate) fn put(&mut self, at: usize, command: Command)
        requires { at < length (slots_of self.old) }
        ensures { slots_of self.new ≡ set (slots_of self.old) at (Some command) }
    {
        self.give(at);
        let old = std::mem::replace(&mut self.commands[at], command);
        drop(old);
    }

    /// The commands, if each slot has one.
    pub(crate) fn commands(self) -> Option<Vec<Command>>
        ensures { MatchOption result ((commands : List CommandOf) → map Some commands ≢ slots_of self)
            (λ commands. map Some commands.items ≡ slots_of self) }
    {
        let Slots {
            commands,
            given: _,
            missing,
        } = self;
        if missing == 0 { Some(commands) } else { None }
    }
}
