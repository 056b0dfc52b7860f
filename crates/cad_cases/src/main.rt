//! The server's answers to a list of events: each line of standard input is an event, and a line is printed for it.
//!
//! The server runs over a ledger in memory, which holds the sample register. The lines and what is printed for them are those of
//! `test_support`. Seven more lines are answered by their own text, and the first three of these start again, with a server and a desk of
//! their own:
//!
//! - `sample`: the ledger holds the sample register, as at the first line;
//! - `empty`: the ledger holds nothing;
//! - `restart`: the ledger is the one that the desk before gives back;
//! - `changes N`: from here on each new server gives a base of a collection at most N changes;
//! - `listings N`: from here on the ledger of each new server can be listed at most N times, and each listing after these runs out of
//!   memory: so what is answered then was not read from it;
//! - `pieces N`: from here on, the replies to bytes are begun, and are made after the next line was done, in pieces of at most N units.
//!   So a command of the next line comes between their pieces. What is printed, and its order, stay what they are;
//! - `memory may be wanting`: from here on an event that the desk refuses because it is out of memory is answered by `4 Memory`, and the
//!   program continues with the next event.
//!
//! After the word `echo` follows a line of `test_support` for a desk of its own: each request there is answered with its method, its target
//! and the revision in force, over a ledger in memory, and two targets have no reply: `/lost` is refused with `NotARegister`, and `/full`
//! with `Memory`.
//!
//! A line without bytes, and one that begins with `#`, is skipped. Any other line is answered by `no case`. If memory runs out otherwise,
//! the program ends with status 7.
#![tactic(auto)]

mod echo;
mod limited;
mod owed;
mod sample;

ghost use Rattle.std.specs.Prelude.{◌≡◌, IfOk};
ghost use Rattle.cad_http.specs.Desks.{register_of};

use crate::limited::LimitedLedger;
use crate::owed::Owed;
use crate::sample::sample_ledger;
use cad_desk::{DeskFault, Event};
use cad_http::{Desk, Server};
use cad_memory_ledger::MemoryLedger;
use std::alloc::{AllocError, Global};
use std::io::{Error, ErrorKind, Read, Result};
use std::mem;
use std::process::ExitCode;
use test_support::{Echo, Line, Memory, answer_event, answer_served, line_of};

/// The status if memory runs out.
const NO_MEMORY: u8 = 7;

/// A desk, and the settings from here on.
#[derive(Drop)]
struct Course {
    desk: Desk<LimitedLedger>,
    /// The replies that were begun last, and are to be made after the next line was done.
    owed: Option<Owed>,
    /// How many units of work a piece has at most, if replies are made in pieces.
    pieces: Option<u32>,
    memory: Memory,
    most_changes: Option<usize>,
    listings: u64,
}

/// A desk without connections, over the ledger.
fn begun(
    alloc: Global,
    ledger: LimitedLedger,
    most_changes: Option<usize>,
) -> std::result::Result<Desk<LimitedLedger>, AllocError>
    ensures { IfOk result (λ desk. register_of desk ≡ ledger) }
{
    let Some(most_changes) = most_changes else {
        return match Desk::new(alloc, ledger) {
            Ok(desk) => Ok(desk),
            Err(_) => Err(AllocError),
        };
    };
    match Server::with_changes(alloc, ledger, most_changes) {
        Ok(server) => Ok(Desk::over(alloc, server)),
        Err(_) => Err(AllocError),
    }
}

/// A desk over a ledger that holds nothing.
fn idle_desk(alloc: Global) -> std::result::Result<Desk<LimitedLedger>, AllocError> {
    let ledger = LimitedLedger {
        ledger: MemoryLedger::new(alloc),
        listings: 0,
    };
    begun(alloc, ledger, None)
}

impl Course {
    fn new(alloc: Global) -> std::result::Result<Course, AllocError> {
        let mut course = Course {
            desk: idle_desk(alloc)?,
            owed: None,
            pieces: None,
            memory: Memory::IsAmple,
            most_changes: None,
            listings: u64::MAX,
        };
        course.begin(alloc, sample_ledger(alloc)?)?;
        Ok(course)
    }

    /// Starts a new server and desk over the ledger.
    fn begin(
        &mut self,
        alloc: Global,
        ledger: MemoryLedger,
    ) -> std::result::Result<(), AllocError> {
        let limited = LimitedLedger {
            ledger,
            listings: self.listings,
        };
        self.desk = begun(alloc, limited, self.most_changes)?;
        Ok(())
    }

    /// Starts a new server and desk over the ledger of the desk.
    fn restart(&mut self, alloc: Global) -> std::result::Result<(), AllocError> {
        let idle = idle_desk(alloc)?;
        let limited = mem::replace(&mut self.desk, idle).release();
        self.begin(alloc, limited.ledger)
    }

    /// Does what the line sets or begins, if it is a line of this program only.
    fn set(&mut self, alloc: Global, line: &str) -> std::result::Result<bool, AllocError> {
        if let Some(most) = line.strip_prefix("changes ") {
            let Ok(most) = most.parse() else {
                return Ok(false);
            };
            self.most_changes = Some(most);
            return Ok(true);
        }
        if let Some(listings) = line.strip_prefix("listings ") {
            let Ok(listings) = listings.parse() else {
                return Ok(false);
            };
            self.listings = listings;
            return Ok(true);
        }
        if let Some(pieces) = line.strip_prefix("pieces ") {
            let Ok(pieces) = pieces.parse() else {
                return Ok(false);
            };
            self.pieces = Some(pieces);
            return Ok(true);
        }
        match line {
            "sample" => self.begin(alloc, sample_ledger(alloc)?)?,
            "empty" => self.begin(alloc, MemoryLedger::new(alloc))?,
            "restart" => self.restart(alloc)?,
            "memory may be wanting" => self.memory = Memory::MayBeWanting,
            _ => return Ok(false),
        }
        Ok(true)
    }

    /// What is printed for bytes of a connection; `None` if their replies were begun and are made later.
    fn answer_bytes(
        &mut self,
        alloc: Global,
        c: u32,
        piece: Vec<u8>,
    ) -> std::result::Result<Option<String>, AllocError> {
        if self.pieces.is_none() {
            let answer = self.desk.step(Event::Bytes(c, piece));
            return Ok(Some(answer_event(alloc, answer, self.memory)?));
        }
        match self.desk.connections.begin(c, piece) {
            Ok(owing) => {
                self.owed = Some(Owed { c, owing });
                Ok(None)
            }
            Err(fault) => Ok(Some(answer_event(alloc, Err(fault), self.memory)?)),
        }
    }

    /// What is printed for replies that were begun, and are made now.
    fn answer_owed(
        &mut self,
        alloc: Global,
        owed: Owed,
    ) -> std::result::Result<String, AllocError> {
        let c = owed.c;
        match owed.reply(alloc, self.pieces.unwrap_or(1)) {
            Ok(reply) => answer_event(alloc, Ok(reply), self.memory),
            Err(AllocError) => {
                let _ = self.desk.step(Event::Close(c));
                answer_event(alloc, Err(DeskFault::Memory), self.memory)
            }
        }
    }

    /// What is printed for a line; `None` if it is printed later.
    fn answer(
        &mut self,
        alloc: Global,
        line: &[u8],
    ) -> std::result::Result<Option<String>, AllocError> {
        if let Ok(text) = str::from_utf8(line) {
            if self.set(alloc, text)? {
                return Ok(Some(String::from_str(alloc, text)?));
            }
        }
        match line_of(alloc, line)? {
            None => Ok(Some(String::from_str(alloc, "no case")?)),
            Some(Line::Event(Event::Bytes(c, piece))) => self.answer_bytes(alloc, c, piece),
            Some(Line::Event(event)) => {
                let answer = self.desk.step(event);
                Ok(Some(answer_event(alloc, answer, self.memory)?))
            }
            Some(Line::Serve(served)) => Ok(Some(answer_served(
                alloc,
                &mut self.desk.connections,
                &served,
                self.memory,
            )?)),
        }
    }
}

/// What is printed for a line, by the server's desk or by the other one; `None` if it is printed later.
fn answer_line(
    alloc: Global,
    course: &mut Course,
    echoing: &mut cad_desk::Desk<Echo>,
    line: &[u8],
) -> std::result::Result<Option<String>, AllocError> {
    match line.strip_prefix(b"echo ") {
        Some(line) => Ok(Some(echo::answer(alloc, echoing, line)?)),
        None => course.answer(alloc, line),
    }
}

/// Makes the replies that were begun, if there are some, and prints them.
fn print_owed(rt: &HostRuntime, course: &mut Course, owed: Option<Owed>) -> Result<()> {
    if let Some(owed) = owed {
        let answer = course.answer_owed(rt.alloc(), owed)?;
        println!(rt; "{}", answer.as_str())?;
    }
    Ok(())
}

/// Does what a line says, makes the replies that were begun before it, and prints both in their order.
fn do_line(
    rt: &HostRuntime,
    course: &mut Course,
    echoing: &mut cad_desk::Desk<Echo>,
    line: &[u8],
) -> Result<()> {
    let owed = course.owed.take();
    let answer = answer_line(rt.alloc(), course, echoing, line)?;
    print_owed(rt, course, owed)?;
    if let Some(answer) = answer {
        println!(rt; "{}", answer.as_str())?;
    }
    Ok(())
}

fn run(rt: &HostRuntime) -> Result<()> {
    let mut input = Vec::new(rt.alloc());
    rt.stdin().read_to_end(&mut input)?;
    let mut course = Course::new(rt.alloc())?;
    let mut echoing = cad_desk::Desk::new(rt.alloc(), Echo::new(rt.alloc()));
    for line in input.split(|byte| *byte == b'\n') {
        if !line.is_empty() && !line.starts_with(b"#") {
            do_line(rt, &mut course, &mut echoing, line)?;
        }
    }
    let owed = course.owed.take();
    print_owed(rt, &mut course, owed)
}

fn status_of(error: Error) -> u8 {
    if error.kind() == ErrorKind::OutOfMemory {
        NO_MEMORY
    } else {
        1
    }
}

fn main(rt: HostRuntime) -> ExitCode {
    match run(&rt) {
        Ok(()) => ExitCode::from(0),
        Err(error) => ExitCode::from(status_of(error)),
    }
}
