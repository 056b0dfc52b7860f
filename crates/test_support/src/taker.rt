//! A writer.

ghost use Rattle.std.specs.Bool.{Decides};
ghost use Rattle.std.specs.Prelude.{◌≡◌, ◌≤◌, [], min, take};

use crate::Stop;
use std::io::{Error, ErrorKind, Result, Write};

const ROOM: usize = 512;

/// A writer that keeps what it took, at most 512 bytes.
#[derive(Debug, Drop)]
pub struct Taker {
    taken: [u8; 512],
    count: usize,
    piece: usize,
    most: usize,
    stop: Stop,
    ghost within: { count ≤ 512 },
}

impl Taker {
    /// It takes at most `piece` bytes a call, and stops after `most` bytes.
    pub fn new(piece: usize, most: usize, stop: Stop) -> Taker
        ensures taken { take result.count result.taken ≡ [] }
        ensures piece { result.piece ≡ piece }
        ensures most { result.most ≡ min most 512 }
        ensures stop { result.stop ≡ stop }
    {
        Taker {
            taken: [0; 512],
            count: 0,
            piece,
            most: most.min(ROOM),
            stop,
        }
    }

    /// Whether these bytes and no others were taken.
    pub fn has_taken(&self, bytes: &[u8]) -> bool
        ensures { Decides result (take self.now.count self.now.taken ≡ bytes.now) }
    {
        match self.taken.get(..self.count) {
            Some(taken) => taken == bytes,
            None => false,
        }
    }
}

impl Write for Taker {
    fn write(&mut self, buf: &[u8]) -> Result<usize> {
        let room = self.most.saturating_sub(self.count);
        let count = buf.len().min(self.piece).min(room);
        if count == 0 && self.stop == Stop::Fails {
            return Err(Error::from(ErrorKind::Other));
        }
        let end = self.count.saturating_add(count);
        let Some(place) = self.taken.get_mut(self.count..end) else {
            return Ok(0);
        };
        if place.len() != count {
            return Ok(0);
        }
        place.copy_from_slice(&buf[..count]);
        self.count = end;
        Ok(count)
    }

    fn flush(&mut self) -> Result<()> {
        Ok(())
    }
}
