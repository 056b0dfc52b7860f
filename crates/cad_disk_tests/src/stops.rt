//! The state of a register after a stop in the middle of a command.

use crate::files::{empty_files, work_over};
use crate::orders::Order;
use crate::trouble::Trouble;
use crate::works::{Outcome, Work};
use sqlite::Files;
use sqlite_disk::{Crash, Disk, Fuse, Memory};
use std::alloc::Global;
use std::process::Abort;
use std::test::Fail;

/// The most calls of a file: a run of a command ends before this many.
const MOST_CALLS: u64 = 1000;

/// The command that the register holds before, and what it lists then.
const FIRST: Order = Order::EnterUnit {
    object: 11,
    first: "2000-01-01",
};

const BEFORE: &str = "1: 11.1 10957 None;";

/// A command of each kind, and what the register lists after it. 1970-01-01 is day 0.
const COMMANDS: [(Order, &str); 3] = [
    (
        Order::EnterUnit {
            object: 12,
            first: "2003-01-01",
        },
        "2: 11.1 10957 None;12.1 12053 None;",
    ),
    (
        Order::AmendUnit {
            object: 11,
            first: "2001-01-01",
            name: None,
        },
        "2: 11.1 10957 Some(11322);11.2 11323 None;",
    ),
    (
        Order::Retire {
            object: 11,
            last: "2001-01-01",
        },
        "2: 11.1 10957 Some(11323);",
    ),
];

/// A file with these bytes, which a crash leaves, and which fails after so many calls.
fn file_of(alloc: Global, bytes: &[u8], calls: u64) -> Result<Fuse<Memory>, Trouble> {
    let mut file = Memory::new(alloc);
    file.write_at(0, bytes)?;
    file.sync()?;
    Ok(Fuse::new(file, calls))
}

/// A database file and its log, as bytes.
#[derive(Drop)]
struct Stored {
    log: Vec<u8>,
    db: Vec<u8>,
}

impl Stored {
    /// The contents of the files.
    fn of(alloc: Global, files: &Files<Fuse<Memory>>) -> Result<Stored, Trouble> {
        Ok(Stored {
            log: Vec::from_slice(alloc, files.log.inner().bytes())?,
            db: Vec::from_slice(alloc, files.db.inner().bytes())?,
        })
    }

    /// Files with these bytes, one of which fails after so many calls.
    fn files(
        &self,
        alloc: Global,
        failing: Failing,
        calls: u64,
    ) -> Result<Files<Fuse<Memory>>, Trouble> {
        let (log_calls, db_calls) = match failing {
            Failing::Log => (calls, u64::MAX),
            Failing::Database => (u64::MAX, calls),
        };
        Ok(Files {
            log: file_of(alloc, &self.log, log_calls)?,
            db: file_of(alloc, &self.db, db_calls)?,
        })
    }
}

/// Which of the two files fails.
#[derive(Clone, Copy)]
enum Failing {
    Log,
    Database,
}

impl Failing {
    fn text(self) -> &'static str {
        match self {
            Failing::Log => "the log fails",
            Failing::Database => "the database file fails",
        }
    }
}

/// A register with one command.
fn stored_of_one(rt: &impl Abort, alloc: Global) -> Result<Stored, Trouble> {
    let (made, files) = work_over(rt, alloc, empty_files(alloc), Work::Make(FIRST));
    let made = made?;
    assert!(rt; matches!(made, Outcome::Entered(1)), "{}", made.text());
    Stored::of(alloc, &files)
}

/// What is found in files with these bytes.
fn found_in(rt: &impl Abort, alloc: Global, log: &[u8], db: &[u8]) -> Result<Outcome, Trouble> {
    let files = Files {
        log: file_of(alloc, log, u64::MAX)?,
        db: file_of(alloc, db, u64::MAX)?,
    };
    let (found, _) = work_over(rt, alloc, files, Work::List);
    found
}

/// What a stop may leave: all that was written to each file, or only what was synced.
#[derive(Drop)]
struct Left {
    written: Stored,
    synced: Stored,
}

impl Left {
    /// What a stop leaves of the files.
    fn of(alloc: Global, files: Files<Fuse<Memory>>) -> Result<Left, Trouble> {
        let written = Stored::of(alloc, &files)?;
        let mut files = files;
        files.log.crash();
        files.db.crash();
        let synced = Stored::of(alloc, &files)?;
        Ok(Left { written, synced })
    }

    /// The four pairs of a log and a database file.
    fn pairs(&self) -> [(&[u8], &[u8]); 4] {
        [
            (&self.written.log, &self.written.db),
            (&self.written.log, &self.synced.db),
            (&self.synced.log, &self.written.db),
            (&self.synced.log, &self.synced.db),
        ]
    }
}

/// Whether a register is opened in the files.
fn is_opened(rt: &impl Abort, alloc: Global, files: Files<Fuse<Memory>>) -> Result<bool, Trouble> {
    let (opened, _) = work_over(rt, alloc, files, Work::Open);
    Ok(matches!(opened?, Outcome::Opened))
}

/// The least number of calls after which the register is open.
fn opening_calls(
    rt: &impl Abort,
    alloc: Global,
    stored: &Stored,
    failing: Failing,
) -> Result<u64, Trouble> {
    for calls in 0..MOST_CALLS {
        if is_opened(rt, alloc, stored.files(alloc, failing, calls)?)? {
            return Ok(calls);
        }
    }
    Err(Trouble::Missing("the register is opened by more calls"))
}

fn has_failed<D: Disk>(file: &mut D) -> bool {
    if !file.may_be_used() {
        return true;
    }
    match file.len() {
        Ok(_) => false,
        Err(_) => true,
    }
}

/// Whether these versions are what may be found: those after the command, or those before it if it was not answered by its revision.
fn is_right(found: &Outcome, is_entered: bool, after: &str) -> bool {
    match found {
        Outcome::Listed(text) => {
            text.as_str() == after || !is_entered && text.as_str() == BEFORE
        }
        _ => false,
    }
}

/// Checks what is found in each pair of files that a stop may leave.
fn check_left(
    rt: &impl Abort,
    alloc: Global,
    left: &Left,
    is_entered: bool,
    after: &str,
) -> Result<(), Trouble> {
    for (log, db) in left.pairs() {
        let found = found_in(rt, alloc, log, db)?;
        assert!(rt;
            is_right(&found, is_entered, after),
            "{}, not {after}; entered: {is_entered}",
            found.text()
        );
    }
    Ok(())
}

/// Runs a command over files, one of which fails after so many calls, and checks what a stop leaves then. Returns whether a call failed.
fn run(
    rt: &impl Abort,
    alloc: Global,
    files: Files<Fuse<Memory>>,
    order: Order,
    after: &str,
) -> Result<bool, Trouble> {
    let (outcome, mut files) = work_over(rt, alloc, files, Work::Enter(order));
    let outcome = outcome?;
    let is_failed = has_failed(&mut files.log) || has_failed(&mut files.db);
    let is_entered = matches!(outcome, Outcome::Entered(2));
    let is_refused = matches!(outcome, Outcome::Refused);
    assert!(rt;
        is_entered || is_failed && is_refused,
        "{}: {}",
        order.text(),
        outcome.text()
    );
    check_left(rt, alloc, &Left::of(alloc, files)?, is_entered, after)?;
    Ok(is_failed)
}

/// How many stops of the file a run of the command has, one after each of its calls after those that open the register.
fn stops(
    rt: &impl Abort,
    alloc: Global,
    stored: &Stored,
    failing: Failing,
    opening: u64,
    order: Order,
    after: &str,
) -> Result<u64, Trouble> {
    for calls in opening..MOST_CALLS {
        let files = stored.files(alloc, failing, calls)?;
        if !run(rt, alloc, files, order, after)? {
            return Ok(calls - opening);
        }
    }
    Err(Trouble::Missing("a run makes more calls"))
}

/// The stops of one of the two files, after each number of calls until a run meets no failure. Opened again, the register is the one before
/// the command or the one after it, and the one after it if the command was answered by its revision.
fn stop_each(rt: &impl Abort, alloc: Global, failing: Failing) -> Result<(), Trouble> {
    let stored = stored_of_one(rt, alloc)?;
    let opening = opening_calls(rt, alloc, &stored, failing)?;
    for (order, after) in COMMANDS {
        let met = stops(rt, alloc, &stored, failing, opening, order, after)?;
        assert!(rt; met > 1, "{}: {}: {met}", failing.text(), order.text());
    }
    Ok(())
}

#[test]
fn a_log_that_stops_leaves_the_register_before_or_after(rt: HostRuntime) -> Result<(), Fail> {
    stop_each(&rt, rt.alloc(), Failing::Log)?;
    Ok(())
}

#[test]
fn a_database_file_that_stops_leaves_the_register_before_or_after(
    rt: HostRuntime,
) -> Result<(), Fail> {
    stop_each(&rt, rt.alloc(), Failing::Database)?;
    Ok(())
}
