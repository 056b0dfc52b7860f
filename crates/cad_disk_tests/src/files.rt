//! A database in two files, its own and that of its log.

use crate::trouble::Trouble;
use crate::works::{Outcome, Work, run};
use sqlite::{Connection, Files, Options};
use sqlite_disk::{Disk, Fuse, Memory};
use std::alloc::Global;
use std::process::Abort;

/// Two files without bytes, which never fail.
pub(crate) fn empty_files(alloc: Global) -> Files<Fuse<Memory>> {
    Files {
        log: Fuse::new(Memory::new(alloc), u64::MAX),
        db: Fuse::new(Memory::new(alloc), u64::MAX),
    }
}

/// What comes of work over the database in the files, and the files in their state after it. If the work closes them, they are closed as
/// at the end of a program.
///
/// Before the database commits, it copies what the log holds into the database file, so that a command writes to both.
fn work_in<D: Disk + Drop>(
    rt: &impl Abort,
    alloc: Global,
    files: Files<D>,
    work: Work,
) -> (Result<Outcome, Trouble>, Files<D>) {
    if !files.may_be_used() {
        return (Ok(Outcome::Unopened), files);
    }
    let options = Options {
        checkpoint_frames: 1,
        ..Options::new(1)
    };
    match Connection::open_files(alloc, files, options) {
        Ok(connection) => {
            let (outcome, connection) = run(rt, alloc, connection, work);
            if !work.closes() {
                return (outcome, connection.into_store().close());
            }
            match connection.close_files() {
                Ok(files) => (outcome, files),
                Err((_, store)) => (Err(Trouble::Missing("closed")), store.close()),
            }
        }
        Err((_, left)) => (Ok(Outcome::Unopened), left.into_files()),
    }
}

/// The same over files in memory that fail after so many calls.
pub(crate) fn work_over(
    rt: &impl Abort,
    alloc: Global,
    files: Files<Fuse<Memory>>,
    work: Work,
) -> (Result<Outcome, Trouble>, Files<Fuse<Memory>>) {
    work_in(rt, alloc, files, work)
}
