//! The first line of a request.

ghost use Rattle.std.specs.Prelude.{◌≡◌, ◌≤◌, length};
ghost use Rattle.cadastred_run.specs.inner.FirstLines.{ends_line as ends_line_of};

use std::alloc::{AllocError, Global};

/// The most bytes of a line that are kept.
const MOST: usize = 512;

fn ends_line(byte: u8) -> bool
    ensures { result ≡ ends_line_of byte }
{
    byte == b'\r' || byte == b'\n'
}

/// The first line of the request that a connection is sending, as far as it was read, and no more than 512 bytes of it.
#[derive(Debug, Drop)]
pub(crate) struct Request {
    bytes: Vec<u8>,
    has_ended: bool,
    pub ghost few: { length bytes.items ≤ 512 },
}

impl Request {
    ghost use Rattle.std.specs.Prelude.{◌≡◌, ◌++◌, ℕ, List, [], ◌∷◌, OnOk, IsFalse};
    ghost use Rattle.cadastred_run.specs.inner.Requests.{HoldsLineOf};

    /// Nothing was read.
    pub(crate) fn new(alloc: Global) -> Request
        ensures { HoldsLineOf result [] }
    {
        Request {
            bytes: Vec::new(alloc),
            has_ended: false,
        }
    }

    /// The line.
    pub(crate) fn line(&self) -> &[u8]
        ensures { result.now ≡ self.now.bytes.items }
    {
        &self.bytes
    }

    /// The next request begins.
    pub(crate) fn clear(&mut self)
        ensures { HoldsLineOf self.new [] }
    {
        self.bytes.clear();
        self.has_ended = false;
    }

    fn add_byte(&mut self, byte: u8) -> Result<(), AllocError>
        requires { IsFalse self.now.has_ended }
        ensures { OnOk result ((read : List ℕ) → HoldsLineOf self.old read → HoldsLineOf self.new (read ++ byte ∷ [])) }
    {
        if ends_line(byte) {
            self.has_ended = !self.bytes.is_empty();
        } else if self.bytes.len() < MOST {
            self.bytes.push(byte)?;
        }
        Ok(())
    }

    /// Adds bytes of the request and keeps those of its first line. Empty lines before it are skipped.
    pub(crate) fn add(&mut self, bytes: &[u8]) -> Result<(), AllocError>
        ensures { OnOk result ((read : List ℕ) → HoldsLineOf self.old read → HoldsLineOf self.new (read ++ bytes.now)) }
    {
        for byte in bytes {
            if self.has_ended {
                return Ok(());
            }
            self.add_byte(*byte)?;
        }
        Ok(())
    }
}
