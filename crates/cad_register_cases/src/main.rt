//! The answers of the server over a register in a database to a list of events: each line of standard input is an event, and a line is
//! printed for it.
//!
//! The database is in memory, and its register is the sample register. The lines and what is printed for them are those of `test_support`.
//! Five more lines are answered by their own text, as `cad_cases` does over a ledger without a database:
//!
//! - `sample`: a server and a desk over the sample register in a new database, as at the first line;
//! - `empty`: over a register without commands;
//! - `restart`: over the register that is opened in the database of the desk before;
//! - `changes N`: from here on each new server gives a base of a collection at most N changes;
//! - `memory may be wanting`: from here on an event that the desk refuses because it is out of memory is answered by `4 Memory`, and the
//!   program continues with the next event.
//!
//! A line without bytes, and one that begins with `#`, is skipped. Any other line is answered by `no case`. If memory runs out otherwise,
//! the program ends with status 7, and with status 1 if the register refuses to be made or opened.
#![tactic(auto)]

use cad_desk::Desk;
use cad_register::{Register, RegisterFault};
use cad_sample::fill;
use cad_server::Server;
use sqlite::{Connection, MemStore};
use std::alloc::Global;
use std::io::{Error, ErrorKind, Read, Result};
use std::mem;
use std::process::ExitCode;
use test_support::{Memory, answer, line_of};

/// The status if memory runs out.
const NO_MEMORY: u8 = 7;

/// A desk of the server over a register in a database in memory.
type RegisterDesk = Desk<Server<Register<MemStore>>>;

/// The error that ends the program if the register refuses.
fn error_of(fault: RegisterFault) -> Error {
    match fault {
        RegisterFault::Memory => Error::from(ErrorKind::OutOfMemory),
        _ => Error::from(ErrorKind::Other),
    }
}

/// A register without commands.
fn empty_register(alloc: Global) -> Result<Register<MemStore>> {
    let connection = Connection::open_in_memory(alloc)?;
    match Register::create(alloc, connection) {
        Ok(register) => Ok(register),
        Err((fault, _)) => Err(error_of(fault)),
    }
}

/// The sample register.
fn sample_register(alloc: Global) -> Result<Register<MemStore>> {
    let mut register = empty_register(alloc)?;
    match fill(alloc, &mut register) {
        Ok(_) => Ok(register),
        Err(fault) => Err(error_of(fault)),
    }
}

/// The register that is opened in the database of another one.
fn opened_again(alloc: Global, register: Register<MemStore>) -> Result<Register<MemStore>> {
    match Register::open(alloc, register.release()) {
        Ok(register) => Ok(register),
        Err((fault, _)) => Err(error_of(fault)),
    }
}

/// A desk without connections, over the register.
fn begun(
    alloc: Global,
    register: Register<MemStore>,
    most_changes: Option<usize>,
) -> Result<RegisterDesk> {
    let server = match most_changes {
        Some(most) => Server::with_changes(alloc, register, most),
        None => Server::new(alloc, register),
    };
    match server {
        Ok(server) => Ok(Desk::new(alloc, server)),
        Err(_) => Err(Error::from(ErrorKind::OutOfMemory)),
    }
}

/// A desk, and the settings from here on.
#[derive(Drop)]
struct Course {
    desk: RegisterDesk,
    memory: Memory,
    most_changes: Option<usize>,
}

impl Course {
    fn new(alloc: Global) -> Result<Course> {
        Ok(Course {
            desk: begun(alloc, sample_register(alloc)?, None)?,
            memory: Memory::IsAmple,
            most_changes: None,
        })
    }

    /// Starts a new server and desk over the register.
    fn begin(&mut self, alloc: Global, register: Register<MemStore>) -> Result<()> {
        self.desk = begun(alloc, register, self.most_changes)?;
        Ok(())
    }

    /// Starts a new server and desk over the register of the desk, opened again.
    fn restart(&mut self, alloc: Global) -> Result<()> {
        let idle = begun(alloc, empty_register(alloc)?, None)?;
        let register = mem::replace(&mut self.desk, idle).release().release();
        self.begin(alloc, opened_again(alloc, register)?)
    }

    /// Does what the line sets or begins, if it is a line of this program only.
    fn set(&mut self, alloc: Global, line: &str) -> Result<bool> {
        if let Some(most) = line.strip_prefix("changes ") {
            let Ok(most) = most.parse() else {
                return Ok(false);
            };
            self.most_changes = Some(most);
            return Ok(true);
        }
        match line {
            "sample" => self.begin(alloc, sample_register(alloc)?)?,
            "empty" => self.begin(alloc, empty_register(alloc)?)?,
            "restart" => self.restart(alloc)?,
            "memory may be wanting" => self.memory = Memory::MayBeWanting,
            _ => return Ok(false),
        }
        Ok(true)
    }

    /// What is printed for a line.
    fn answer(&mut self, alloc: Global, line: &[u8]) -> Result<String> {
        if let Ok(text) = str::from_utf8(line) {
            if self.set(alloc, text)? {
                return Ok(String::from_str(alloc, text)?);
            }
        }
        let Some(event) = line_of(alloc, line)? else {
            return Ok(String::from_str(alloc, "no case")?);
        };
        Ok(answer(alloc, &mut self.desk, event, self.memory)?)
    }
}

fn run(rt: &HostRuntime) -> Result<()> {
    let mut input = Vec::new(rt.alloc());
    rt.stdin().read_to_end(&mut input)?;
    let mut course = Course::new(rt.alloc())?;
    for line in input.split(|byte| *byte == b'\n') {
        if !line.is_empty() && !line.starts_with(b"#") {
            let answer = course.answer(rt.alloc(), line)?;
            println!(rt; "{}", answer.as_str())?;
        }
    }
    Ok(())
}

fn status_of(error: Error) -> u8 {
    if error.kind() == ErrorKind::OutOfMemory {
        NO_MEMORY
    } else {
        1
    }
}

fn main(rt: HostRuntime) -> ExitCode {
    match run(&rt) {
        Ok(()) => ExitCode::from(0),
        Err(error) => ExitCode::from(status_of(error)),
    }
}
