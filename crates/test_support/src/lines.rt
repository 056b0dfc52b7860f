//! The event of a line.

use crate::bytes::bytes_of;
use cad_commands::{CommandError, read_command};
use cad_desk::Event;
use std::alloc::{AllocError, Global};

/// Which call of a reader or a writer goes wrong, counted from 1.
#[derive(Clone, Copy)]
pub enum Failure {
    /// No call does.
    Never,
    /// This read fails.
    Read(u32),
    /// This write fails.
    Write(u32),
    /// This write takes nothing.
    EmptyWrite(u32),
}

/// A connection that sends these bytes.
#[derive(Drop)]
pub struct Served {
    /// The number of the connection.
    pub number: u32,
    /// What it sends.
    pub bytes: Vec<u8>,
    /// What fails while it is served.
    pub failure: Failure,
}

/// What a line asks for.
#[derive(Drop)]
pub enum Line {
    /// An event of the desk.
    Event(Event),
    /// A connection is served.
    Serve(Served),
}

fn command_line(alloc: Global, text: &str) -> Result<Option<Line>, AllocError> {
    match read_command(alloc, text.as_bytes()) {
        Ok(command) => Ok(Some(Line::Event(Event::Office(command)))),
        Err(CommandError::NotACommand) => Ok(None),
        Err(CommandError::Memory) => Err(AllocError),
    }
}

/// A number of a connection, and the bytes that it sends.
fn sent_by(alloc: Global, rest: &str) -> Result<Option<(u32, Vec<u8>)>, AllocError> {
    let Some((number, json)) = rest.split_once(' ') else {
        return Ok(None);
    };
    let Ok(number) = number.parse() else {
        return Ok(None);
    };
    match bytes_of(alloc, json.as_bytes())? {
        Some(bytes) => Ok(Some((number, bytes))),
        None => Ok(None),
    }
}

fn bytes_line(alloc: Global, rest: &str) -> Result<Option<Line>, AllocError> {
    match sent_by(alloc, rest)? {
        Some((number, bytes)) => Ok(Some(Line::Event(Event::Bytes(number, bytes)))),
        None => Ok(None),
    }
}

fn serve_line(alloc: Global, failure: Failure, rest: &str) -> Result<Option<Line>, AllocError> {
    match sent_by(alloc, rest)? {
        Some((number, bytes)) => Ok(Some(Line::Serve(Served {
            number,
            bytes,
            failure,
        }))),
        None => Ok(None),
    }
}

/// A connection that is served while a call fails.
fn failing_line(alloc: Global, word: &str, rest: &str) -> Result<Option<Line>, AllocError> {
    let Some((at, rest)) = rest.split_once(' ') else {
        return Ok(None);
    };
    match (word, at.parse()) {
        ("fail-read", Ok(at)) => serve_line(alloc, Failure::Read(at), rest),
        ("fail-write", Ok(at)) => serve_line(alloc, Failure::Write(at), rest),
        ("empty-write", Ok(at)) => serve_line(alloc, Failure::EmptyWrite(at), rest),
        _ => Ok(None),
    }
}

/// What the line asks for, if it is a case. No clause says which lines are cases: those of `cad_cases` and `cad_register_cases` have a
/// line of each kind, and lines that are none.
pub fn line_of(alloc: Global, line: &[u8]) -> Result<Option<Line>, AllocError> {
    let Ok(text) = str::from_utf8(line) else {
        return Ok(None);
    };
    let Some((word, rest)) = text.split_once(' ') else {
        return Ok(None);
    };
    match (word, rest.parse()) {
        ("open", Ok(number)) => Ok(Some(Line::Event(Event::Open(number)))),
        ("close", Ok(number)) => Ok(Some(Line::Event(Event::Close(number)))),
        ("office", _) => command_line(alloc, rest),
        ("bytes", _) => bytes_line(alloc, rest),
        ("serve", _) => serve_line(alloc, Failure::Never, rest),
        _ => failing_line(alloc, word, rest),
    }
}
