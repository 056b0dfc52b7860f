//! Writing over short writes.

ghost use Rattle.cad_io.specs.Writing.{IsWritten};

use crate::pieces::rest_from;
use std::io::Write;

/// A write failed, or took nothing.
#[derive(Clone, Copy, Debug, PartialEq, Eq)]
pub struct WriteFailed;

/// Writes all the bytes. It stops at a write that fails or takes nothing: then only a prefix of them was written.
pub fn write_whole<W: Write>(writer: &mut W, bytes: &[u8]) -> Result<(), WriteFailed>
    ensures { IsWritten (W.contents writer.old) (W.contents writer.new) bytes.now result }
{
    let mut done = 0;
    while done < bytes.len() {
        match writer.write(rest_from(bytes, done)) {
            Ok(0) | Err(_) => return Err(WriteFailed),
            Ok(count) => done += count,
        }
    }
    Ok(())
}
