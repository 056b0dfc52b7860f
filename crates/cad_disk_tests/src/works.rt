//! What is done over a database of any kind.

use crate::orders::Order;
use crate::trouble::Trouble;
use crate::walk::{WALK, WALK_ON, told};
use cad_register::{Register, RegisterFault, Revision};
use cad_sample::fill;
use sqlite::{Alter, Connection};
use std::alloc::Global;
use std::process::Abort;
use test_support::listed;

/// What is done over a database.
#[derive(Clone, Copy)]
pub(crate) enum Work {
    /// A register is made, and a command is entered into it.
    Make(Order),
    /// The register is opened.
    Open,
    /// The register is opened, and a command is entered into it.
    Enter(Order),
    /// The register is opened, and its versions are listed.
    List,
    /// A register of the sample is made, a walk begins at a desk over it, and the files are closed.
    BeginWalk,
    /// The register is opened, the walk goes on at a desk over it, and the files are closed.
    GoOn,
}

/// What comes of it.
#[derive(Drop)]
pub(crate) enum Outcome {
    /// There is no register, or none is made.
    Unopened,
    /// The register was opened.
    Opened,
    /// The register refused the command.
    Refused,
    /// The command was accepted, and made this revision.
    Entered(Revision),
    /// The newest revision, and the versions that are listed then.
    Listed(String),
    /// Each answer of the walk was right.
    Walked,
}

impl Outcome {
    /// What came of the work, in words.
    pub(crate) fn text(&self) -> &str {
        match self {
            Outcome::Unopened => "no register",
            Outcome::Opened => "opened",
            Outcome::Refused => "refused",
            Outcome::Entered(_) => "entered",
            Outcome::Listed(text) => text.as_str(),
            Outcome::Walked => "walked",
        }
    }
}

impl Work {
    /// Whether the files are closed at its end, as at the end of a program.
    pub(crate) fn closes(self) -> bool {
        matches!(self, Work::BeginWalk | Work::GoOn)
    }

    fn makes(self) -> bool {
        matches!(self, Work::Make(_) | Work::BeginWalk)
    }
}

fn entered<S: Alter>(
    alloc: Global,
    register: &mut Register<S>,
    order: Order,
) -> Result<Outcome, Trouble> {
    let command = order.command(alloc)?;
    match register.apply(command) {
        Ok(revision) => Ok(Outcome::Entered(revision)),
        Err(_) => Ok(Outcome::Refused),
    }
}

fn listing<S: Alter>(alloc: Global, register: &mut Register<S>) -> Result<Outcome, Trouble> {
    match listed(alloc, register) {
        Ok(text) => Ok(Outcome::Listed(text)),
        Err(_) => Err(Trouble::Missing("listed")),
    }
}

/// A walk over the register with the commands of the sample.
fn walk_begun<S: Alter>(
    rt: &impl Abort,
    alloc: Global,
    register: Register<S>,
) -> (Result<Outcome, Trouble>, Register<S>) {
    let mut register = register;
    if fill(alloc, &mut register) != Ok(10) {
        return (Err(Trouble::Missing("filled")), register);
    }
    told(rt, alloc, register, &WALK)
}

/// What comes of work over a register.
fn done<S: Alter>(
    rt: &impl Abort,
    alloc: Global,
    register: Register<S>,
    work: Work,
) -> (Result<Outcome, Trouble>, Register<S>) {
    let mut register = register;
    match work {
        Work::Open => (Ok(Outcome::Opened), register),
        Work::Make(order) | Work::Enter(order) => {
            let outcome = entered(alloc, &mut register, order);
            (outcome, register)
        }
        Work::List => {
            let outcome = listing(alloc, &mut register);
            (outcome, register)
        }
        Work::BeginWalk => walk_begun(rt, alloc, register),
        Work::GoOn => told(rt, alloc, register, &WALK_ON),
    }
}

/// The register of the database, or a new one.
fn register_in<S: Alter>(
    alloc: Global,
    connection: Connection<S>,
    work: Work,
) -> Result<Register<S>, (RegisterFault, Connection<S>)> {
    if work.makes() {
        Register::create(alloc, connection)
    } else {
        Register::open(alloc, connection)
    }
}

/// What comes of work over a database, and its connection.
pub(crate) fn run<S: Alter>(
    rt: &impl Abort,
    alloc: Global,
    connection: Connection<S>,
    work: Work,
) -> (Result<Outcome, Trouble>, Connection<S>) {
    match register_in(alloc, connection, work) {
        Ok(register) => {
            let (outcome, register) = done(rt, alloc, register, work);
            (outcome, register.release())
        }
        Err((_, connection)) => (Ok(Outcome::Unopened), connection),
    }
}
