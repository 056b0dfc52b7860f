//! Readers that count how often they are read.

ghost use Rattle.std.specs.Prelude.{◌≡◌, IsOk};
ghost use Rattle.std.specs.Io.{ReadsAtMost};
ghost use Rattle.std.specs.Io.KnownBytes.{ReadConsumes};
ghost use Rattle.cad_io.specs.Counting.{CountsReads};

use std::io::{Error, ErrorKind, Read, Result};

/// A reader that counts how often it is read.
pub trait CountedRead: Read {
    ghost use Rattle.std.specs.Prelude.{ℕ};

    ghost reads: { Self → ℕ };

    /// Reads once.
    fn read_once(&mut self, buf: &mut [u8]) -> Result<usize>
        ensures bound { ReadsAtMost result buf.new }
        ensures bytes { ReadConsumes (Self.remaining self.old) (Self.remaining self.new) result buf.new }
        ensures counted { CountsReads 1 (IsOk result) (reads self.old) (reads self.new) };
}

/// A reader, and how often it was read, up to 2^64 - 1 times: after that it is not read, and each call fails.
#[derive(Debug, Drop)]
pub struct Counted<R> {
    reader: R,
    count: u64,
}

impl<R> Counted<R> {
    /// The reader, not read yet.
    pub fn new(reader: R) -> Counted<R>
        ensures { result ≡ record { reader = reader; count = 0 } }
    {
        Counted { reader, count: 0 }
    }

    /// The reader that is counted.
    pub fn reader(&self) -> &R
        ensures { result.now ≡ self.now.reader }
    {
        &self.reader
    }
}

impl<R: Read> Read for Counted<R> {
    ghost remaining = { λ counted. R.remaining counted.reader };

    fn read(&mut self, buf: &mut [u8]) -> Result<usize> {
        self.read_once(buf)
    }
}

impl<R: Read> CountedRead for Counted<R> {
    ghost reads = { λ counted. counted.count };

    fn read_once(&mut self, buf: &mut [u8]) -> Result<usize> {
        if self.count == u64::MAX {
            return Err(Error::from(ErrorKind::Other));
        }
        self.count += 1;
        self.reader.read(buf)
    }
}
