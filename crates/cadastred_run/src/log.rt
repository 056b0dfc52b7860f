//! The log, with a line for each reply.

use crate::access::Access;
use crate::request::Request;
use cad_clients::{AccessLog, ROOM};
use cad_mio::Socket;
use std::alloc::{AllocError, Global};
use std::io::Write;
use std::net::SocketAddr;
use std::time::{Clock, SystemTime, UNIX_EPOCH};

/// A client as the log knows it.
#[derive(Drop)]
struct Caller {
    address: SocketAddr,
    request: Request,
}

/// A writer of a line for each reply, or nothing.
#[derive(Drop)]
pub struct Log<'a, C: Clock, E: Write> {
    rt: &'a C,
    writer: Option<E>,
    callers: Vec<Option<Caller>>,
    alloc: Global,
}

/// Seconds after 1970-01-01T00:00:00Z, or 0 if the clock cannot be read.
fn wall_seconds(clock: &impl Clock) -> u64 {
    let Ok(time) = SystemTime::now(clock) else {
        return 0;
    };
    match time.duration_since(UNIX_EPOCH) {
        Ok(since) => since.as_secs(),
        Err(_) => 0,
    }
}

impl<'a, C: Clock, E: Write + Drop> Log<'a, C, E> {
    /// A log to this writer, or none.
    pub fn new(rt: &'a C, alloc: Global, writer: Option<E>) -> Result<Log<'a, C, E>, AllocError> {
        let mut callers = Vec::new(alloc);
        for _ in 0..ROOM {
            callers.push(None)?;
        }
        Ok(Log {
            rt,
            writer,
            callers,
            alloc,
        })
    }
}

impl<'a, C: Clock, E: Write> Log<'a, C, E> {
    /// Writes the line of a reply. If memory runs out or a write fails, no line is written.
    fn tell(&mut self, caller: &Caller, reply: &[u8]) {
        let access = Access {
            seconds: wall_seconds(self.rt),
            address: caller.address,
            request: caller.request.line(),
            reply,
        };
        let Ok(mut line) = access.line(self.alloc) else {
            return;
        };
        if line.push(b'\n').is_err() {
            return;
        }
        if let Some(writer) = &mut self.writer {
            let _ = writer.write_all(&line);
        }
    }
}

impl<'a, C: Clock, E: Write> AccessLog<Socket> for Log<'a, C, E> {
    fn open(&mut self, c: u32, socket: &Socket) {
        let Socket::Client(_, address) = socket else {
            return;
        };
        let request = Request::new(self.alloc);
        if let Some(caller) = self.callers.get_mut(c as usize) {
            *caller = Some(Caller {
                address: *address,
                request,
            });
        }
    }

    fn note(&mut self, c: u32, piece: &[u8], reply: &[u8]) {
        if self.writer.is_none() {
            return;
        }
        let Some(slot) = self.callers.get_mut(c as usize) else {
            return;
        };
        let Some(mut caller) = slot.take() else {
            return;
        };
        let _ = caller.request.add(piece);
        if !reply.is_empty() {
            self.tell(&caller, reply);
            caller.request.clear();
        }
        if let Some(slot) = self.callers.get_mut(c as usize) {
            *slot = Some(caller);
        }
    }
}
