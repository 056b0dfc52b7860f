//! Writers that count how many of their writes fail.

ghost use Rattle.std.specs.Prelude.{◌≡◌, is_err};
ghost use Rattle.std.specs.Io.{WritesAtMost};
ghost use Rattle.std.specs.Io.KnownBytes.{WriteAppends};
ghost use Rattle.cad_io.specs.Counting.{CountsFailure, is_failure};
ghost use Rattle.cad_io.specs.Writing.{IsWritten};

use crate::pieces::rest_from;
use crate::writing::WriteFailed;
use std::io::{Result, Write};

/// A writer that counts how many of its writes failed or took nothing.
pub trait CountedWrite: Write {
    ghost use Rattle.std.specs.Prelude.{ℕ};

    ghost failures: { Self → ℕ };

    /// Writes once.
    fn write_once(&mut self, buf: &[u8]) -> Result<usize>
        ensures bound { WritesAtMost result buf.now }
        ensures bytes { WriteAppends (Self.contents self.old) (Self.contents self.new) result buf.now }
        ensures counted { CountsFailure (is_failure result) (failures self.old) (failures self.new) };
}

/// A writer, and how many of its writes failed or took nothing, up to 2^64 - 1.
#[derive(Debug, Drop)]
pub struct CountedWriter<W> {
    writer: W,
    failed: u64,
}

impl<W> CountedWriter<W> {
    /// The writer, of which no write has failed yet.
    pub fn new(writer: W) -> CountedWriter<W>
        ensures { result ≡ record { writer = writer; failed = 0 } }
    {
        CountedWriter { writer, failed: 0 }
    }

    /// The writer whose failures are counted.
    pub fn writer(&self) -> &W
        ensures { result.now ≡ self.now.writer }
    {
        &self.writer
    }
}

impl<W: Write> Write for CountedWriter<W> {
    ghost contents = { λ counted. W.contents counted.writer };

    fn write(&mut self, buf: &[u8]) -> Result<usize> {
        self.write_once(buf)
    }

    fn flush(&mut self) -> Result<()> {
        self.writer.flush()
    }
}

impl<W: Write> CountedWrite for CountedWriter<W> {
    ghost failures = { λ counted. counted.failed };

    fn write_once(&mut self, buf: &[u8]) -> Result<usize> {
        let written = self.writer.write(buf);
        if matches!(written, Ok(0) | Err(_)) {
            self.failed = self.failed.saturating_add(1);
        }
        written
    }
}

/// Writes all the bytes by a writer that counts its failures. It stops at a write that fails or takes nothing, and counts that failure.
pub fn write_counted<W: CountedWrite>(
    writer: &mut W,
    bytes: &[u8],
) -> std::result::Result<(), WriteFailed>
    ensures written { IsWritten (W.contents writer.old) (W.contents writer.new) bytes.now result }
    ensures counted { CountsFailure (is_err result) (W.failures writer.old) (W.failures writer.new) }
{
    let mut done = 0;
    while done < bytes.len() {
        match writer.write_once(rest_from(bytes, done)) {
            Ok(0) => return Err(WriteFailed),
            Ok(count) => done += count,
            Err(_) => return Err(WriteFailed),
        }
    }
    Ok(())
}
