//! Sockets that give and take bytes by a script.

use std::alloc::{AllocError, Global};
use std::io::{Error, ErrorKind, Read, Result, Write};

/// What a peer sends.
#[derive(Drop)]
pub(crate) struct Sender {
    given: Vec<u8>,
    at: usize,
    pub(crate) has_ended: bool,
    pub(crate) is_broken: bool,
}

impl Sender {
    pub(crate) fn new(alloc: Global) -> Sender {
        Sender {
            given: Vec::new(alloc),
            at: 0,
            has_ended: false,
            is_broken: false,
        }
    }

    /// It sends these bytes.
    pub(crate) fn give(&mut self, bytes: &[u8]) -> std::result::Result<(), AllocError> {
        self.given.extend_from_slice(bytes)
    }
}

impl Read for Sender {
    fn read(&mut self, buf: &mut [u8]) -> Result<usize> {
        if self.is_broken {
            return Err(Error::from(ErrorKind::Other));
        }
        let Some(left) = self.given.get(self.at..) else {
            return Ok(0);
        };
        if left.is_empty() && !self.has_ended {
            return Err(Error::from(ErrorKind::WouldBlock));
        }
        let count = left.len().min(buf.len());
        buf[..count].copy_from_slice(&left[..count]);
        self.at = self.at.saturating_add(count);
        Ok(count)
    }
}

/// What a peer takes.
#[derive(Drop)]
pub(crate) struct Taker {
    pub(crate) taken: Vec<u8>,
    pub(crate) room: usize,
    pub(crate) is_broken: bool,
}

impl Taker {
    pub(crate) fn new(alloc: Global) -> Taker {
        Taker {
            taken: Vec::new(alloc),
            room: 0,
            is_broken: false,
        }
    }
}

impl Write for Taker {
    fn write(&mut self, buf: &[u8]) -> Result<usize> {
        if self.is_broken {
            return Err(Error::from(ErrorKind::Other));
        }
        let count = buf.len().min(self.room);
        if count == 0 {
            return Err(Error::from(ErrorKind::WouldBlock));
        }
        self.taken.extend_from_slice(&buf[..count])?;
        self.room -= count;
        Ok(count)
    }

    fn flush(&mut self) -> Result<()> {
        Ok(())
    }
}
