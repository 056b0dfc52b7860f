//! Commands in lines of the land office, and the features of each revision by rows with periods.
//!
//! The lines are entered into a ledger of their own, and answered as the office does. Then each command of the ledger's journal extends the
//! histories of a register that is empty at first. Collection by collection and revision by revision, each feature of the last histories is
//! printed on a line of its own, as for `= histories`.

use crate::histories::print_feature;
use crate::office_lines::enter_lines;
use crate::stop::Stop;
use cad_changes::histories_after;
use cad_history::{FeaturesAt, Histories, History};
use cad_memory_ledger::MemoryLedger;
use cad_schema::Collection;
use cad_versions::{Command, JournalLedger, Ledger, Version};
use std::alloc::{AllocError, Global};
use std::io;
use std::io::{Error, ErrorKind};
use std::mem::replace;

/// The versions at the revision.
fn listing(ledger: &mut MemoryLedger, revision: u64) -> io::Result<Vec<Version>> {
    let Ok(versions) = ledger.as_of(revision) else {
        return Err(Error::from(ErrorKind::OutOfMemory));
    };
    Ok(versions)
}

/// The accepted commands.
fn commands_of(alloc: Global, ledger: &MemoryLedger) -> io::Result<Vec<Command>> {
    let Ok(reading) = ledger.begin_journal(0) else {
        return Err(Error::from(ErrorKind::OutOfMemory));
    };
    let Ok(commands) = MemoryLedger::commands(reading, alloc) else {
        return Err(Error::from(ErrorKind::OutOfMemory));
    };
    Ok(commands)
}

/// Replaces the histories by those after this command too.
fn add_command(
    alloc: Global,
    histories: &mut Histories,
    command: &Command,
    revision: u64,
) -> Result<(), AllocError> {
    let next = histories_after(alloc, histories, command, revision)?;
    drop(replace(histories, next));
    Ok(())
}

/// Adds the commands, one after the other.
fn add_commands(
    alloc: Global,
    histories: &mut Histories,
    commands: &[Command],
) -> Result<(), AllocError> {
    for (index, command) in commands.iter().enumerate() {
        add_command(alloc, histories, command, index as u64 + 1)?;
    }
    Ok(())
}

/// The histories after these commands.
fn histories_of(alloc: Global, commands: &[Command]) -> Result<Histories, AllocError> {
    let mut histories = Histories::new(alloc)?;
    add_commands(alloc, &mut histories, commands)?;
    Ok(histories)
}

fn print_features(
    rt: &HostRuntime,
    features: &FeaturesAt<'_>,
    revision: u64,
    versions: &[Version],
) -> io::Result<()> {
    for version in versions {
        print_feature(rt, features, revision, version)?;
    }
    Ok(())
}

fn print_revisions(
    rt: &HostRuntime,
    history: &History,
    versions: &[Version],
    newest: u64,
) -> io::Result<()> {
    for revision in 0..=newest {
        print_features(rt, &FeaturesAt::of(history, revision), revision, versions)?;
    }
    Ok(())
}

fn print_histories(
    rt: &HostRuntime,
    histories: &Histories,
    versions: &[Version],
    newest: u64,
) -> io::Result<()> {
    for collection in Collection::ALL {
        print_revisions(rt, histories.of(collection), versions, newest)?;
    }
    Ok(())
}

fn print_commands(
    rt: &HostRuntime,
    commands: &[Command],
    versions: &[Version],
    newest: u64,
) -> io::Result<()> {
    let histories = histories_of(rt.alloc(), commands)?;
    print_histories(rt, &histories, versions, newest)
}

fn print_ledger(rt: &HostRuntime, ledger: &mut MemoryLedger) -> io::Result<()> {
    let newest = ledger.revision();
    let versions = listing(ledger, newest)?;
    let commands = commands_of(rt.alloc(), ledger)?;
    print_commands(rt, &commands, &versions, newest)
}

/// Enters the lines, and prints the answers and the features of each revision.
pub(crate) fn print_answers(rt: &HostRuntime, lines: &[u8]) -> Result<(), Stop> {
    let mut ledger = MemoryLedger::new(rt.alloc());
    enter_lines(rt, lines, &mut ledger)?;
    print_ledger(rt, &mut ledger)?;
    Ok(())
}
