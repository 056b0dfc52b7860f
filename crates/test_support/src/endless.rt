//! A reader without an end.

ghost use Rattle.std.specs.Prelude.{◌≡◌};

use std::io::{Read, Result};

/// A reader that gives a text again and again, one byte a call, and counts its calls.
#[derive(Debug, Drop)]
pub struct Endless<'a> {
    text: &'a [u8],
    at: usize,
    reads: usize,
}

impl<'a> Endless<'a> {
    /// It begins at the text's first byte. If the text has no bytes, it gives nothing.
    pub fn new(text: &'a [u8]) -> Endless<'a>
        ensures text { result.text.now ≡ text.now }
        ensures begins { result.at ≡ 0 }
        ensures unread { result.reads ≡ 0 }
    {
        Endless {
            text,
            at: 0,
            reads: 0,
        }
    }

    /// How often it was read.
    pub fn reads(&self) -> usize
        ensures { result ≡ self.now.reads }
    {
        self.reads
    }
}

impl Read for Endless<'_> {
    fn read(&mut self, buf: &mut [u8]) -> Result<usize> {
        self.reads = self.reads.saturating_add(1);
        if self.at >= self.text.len() {
            self.at = 0;
        }
        match (self.text.get(self.at), buf.first_mut()) {
            (Some(byte), Some(place)) => {
                *place = *byte;
                self.at += 1;
                Ok(1)
            }
            _ => Ok(0),
        }
    }
}
