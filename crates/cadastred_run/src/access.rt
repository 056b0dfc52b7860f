//! A reply, and its line in the log.

ghost use Rattle.std.specs.Prelude.{IfOk};
ghost use Rattle.cadastred_run.specs.inner.Printable.{ArePrintable, StaysPrintable};

use crate::moment::push_moment;
use crate::printable::push_all;
use crate::reply::{revision_of, status_of};
use std::alloc::{AllocError, Global};
use std::net::SocketAddr;

/// A reply, and what the log says about it.
#[derive(Clone, Copy, Debug)]
pub(crate) struct Access<'a> {
    /// When it was, in seconds after 1970-01-01T00:00:00Z.
    pub seconds: u64,
    /// The client's address.
    pub address: SocketAddr,
    /// The first line of its request.
    pub request: &'a [u8],
    /// The reply.
    pub reply: &'a [u8],
}

impl Access<'_> {
    /// Appends what the log says about the client and its request.
    fn push_request(&self, alloc: Global, text: &mut Vec<u8>) -> Result<(), AllocError>
        ensures { StaysPrintable text.old.items text.new.items }
    {
        let address = format!(in alloc; " {} ", self.address)?;
        push_all(text, address.as_bytes())?;
        text.push(b'"')?;
        push_all(text, self.request)?;
        text.push(b'"')?;
        Ok(())
    }

    /// Appends what the log says about the reply.
    fn push_reply(&self, alloc: Global, text: &mut Vec<u8>) -> Result<(), AllocError>
        ensures { StaysPrintable text.old.items text.new.items }
    {
        let count = format!(in alloc; " {} ", self.reply.len())?;
        text.push(b' ')?;
        push_all(text, status_of(self.reply))?;
        push_all(text, count.as_bytes())?;
        push_all(text, revision_of(self.reply))
    }

    /// The line, without its end: the moment, the client's address, the request's first line, and the reply's status, the number of its
    /// bytes and the revision that its body names. A byte of the request that is not printable is written as `\x` and two digits, and so
    /// are `"` and `\`.
    pub(crate) fn line(&self, alloc: Global) -> Result<Vec<u8>, AllocError>
        ensures { IfOk result (λ line. ArePrintable line.items) }
    {
        let mut text = Vec::new(alloc);
        push_moment(alloc, &mut text, self.seconds)?;
        self.push_request(alloc, &mut text)?;
        self.push_reply(alloc, &mut text)?;
        Ok(text)
    }
}
