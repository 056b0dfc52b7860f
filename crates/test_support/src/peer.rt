//! A reader.

ghost use Rattle.std.specs.Prelude.{◌≡◌, take};

use crate::Stop;
use std::io::{Error, ErrorKind, Read, Result};

/// A reader that gives the first bytes of a text in pieces, and counts its calls.
#[derive(Debug, Drop)]
pub struct Peer<'a> {
    left: &'a [u8],
    piece: usize,
    stop: Stop,
    reads: usize,
}

impl<'a> Peer<'a> {
    /// It gives at most `piece` bytes a call, and then stops after `most` bytes of the text, or after all of them.
    pub fn new(text: &'a [u8], piece: usize, most: usize, stop: Stop) -> Peer<'a>
        ensures left { result.left.now ≡ take most text.now }
        ensures piece { result.piece ≡ piece }
        ensures stop { result.stop ≡ stop }
        ensures unread { result.reads ≡ 0 }
    {
        Peer {
            left: &text[..most.min(text.len())],
            piece,
            stop,
            reads: 0,
        }
    }

    /// How often it was read.
    pub fn reads(&self) -> usize
        ensures { result ≡ self.now.reads }
    {
        self.reads
    }
}

impl Read for Peer<'_> {
    fn read(&mut self, buf: &mut [u8]) -> Result<usize> {
        self.reads = self.reads.saturating_add(1);
        if self.left.is_empty() && self.stop == Stop::Fails {
            return Err(Error::from(ErrorKind::Other));
        }
        let count = self.left.len().min(self.piece).min(buf.len());
        let (given, left) = self.left.split_at(count);
        buf[..count].copy_from_slice(given);
        self.left = left;
        Ok(count)
    }
}
