//! What is printed for a connection that is served.

use crate::answers::{Memory, refusal};
use crate::bytes::json_of;
use crate::lines::{Failure, Served};
use cad_desk::Desk;
use cad_io::{Counted, CountedWriter};
use cad_serve::{Ending, ServeFault, serve};
use cad_stream::Responder;
use std::alloc::{AllocError, Global};
use std::io::{Error, ErrorKind, Read, Result as IoResult, Write};

/// The bytes for which a writer has room from the start.
const REPLY_ROOM: usize = 4096;

/// A reader that gives one byte a call, and fails after so many successful calls.
#[derive(Drop)]
struct ByteByByte<'a> {
    bytes: &'a [u8],
    well: u32,
}

impl<'a> Read for ByteByByte<'a> {
    fn read(&mut self, buf: &mut [u8]) -> IoResult<usize> {
        if self.well == 0 {
            return Err(Error::from(ErrorKind::Other));
        }
        self.well -= 1;
        match (self.bytes, buf.first_mut()) {
            ([first, others @ ..], Some(place)) => {
                *place = *first;
                self.bytes = others;
                Ok(1)
            }
            _ => Ok(0),
        }
    }
}

/// A writer that takes one byte a call. After so many successful calls it fails, or takes nothing.
#[derive(Drop)]
struct OneByOne {
    bytes: Vec<u8>,
    well: u32,
    takes_nothing: bool,
}

impl Write for OneByOne {
    fn write(&mut self, buf: &[u8]) -> IoResult<usize> {
        match (self.well, buf.first()) {
            (0, _) if self.takes_nothing => Ok(0),
            (0, _) => Err(Error::from(ErrorKind::Other)),
            (_, Some(byte)) => {
                self.well -= 1;
                self.bytes.push(*byte)?;
                Ok(1)
            }
            (_, None) => Ok(0),
        }
    }

    fn flush(&mut self) -> IoResult<()> {
        Ok(())
    }
}

fn reader_of(served: &Served) -> ByteByByte<'_> {
    ByteByByte {
        bytes: &served.bytes,
        well: match served.failure {
            Failure::Read(at) => at.saturating_sub(1),
            Failure::Never | Failure::Write(_) | Failure::EmptyWrite(_) => u32::MAX,
        },
    }
}

fn writer_of(alloc: Global, served: &Served) -> Result<OneByOne, AllocError> {
    Ok(OneByOne {
        bytes: Vec::with_capacity(alloc, REPLY_ROOM)?,
        well: match served.failure {
            Failure::Write(at) | Failure::EmptyWrite(at) => at.saturating_sub(1),
            Failure::Never | Failure::Read(_) => u32::MAX,
        },
        takes_nothing: matches!(served.failure, Failure::EmptyWrite(_)),
    })
}

fn ending(
    alloc: Global,
    ended: Result<Ending, ServeFault>,
    memory: Memory,
) -> Result<String, AllocError> {
    match ended {
        Ok(Ending::PeerEnded) => String::from_str(alloc, "peer ended"),
        Ok(Ending::WeEnded) => String::from_str(alloc, "we ended"),
        Ok(Ending::Refused(fault)) => refusal(alloc, fault, memory),
        Err(fault) => format!(in alloc; "stopped {} {}", fault.number(), fault.name()),
    }
}

/// How serving the connection ended, and what was written. What happens to the desk is said at `cad_serve::serve`. No clause says
/// which text is returned: the cases of `cad_cases` compare it.
pub fn answer_served<R: Responder>(
    alloc: Global,
    desk: &mut Desk<R>,
    served: &Served,
    memory: Memory,
) -> Result<String, AllocError> {
    let mut writer = CountedWriter::new(writer_of(alloc, served)?);
    let ended = serve(
        alloc,
        &mut Counted::new(reader_of(served)),
        &mut writer,
        desk,
        served.number,
    );
    let mut line = ending(alloc, ended, memory)?;
    line.push_str(" ")?;
    line.push_str(json_of(alloc, &writer.writer().bytes)?.as_str())?;
    Ok(line)
}
