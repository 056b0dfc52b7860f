//! Writing texts piece by piece.

ghost use Rattle.std.specs.Prelude.{◌≡◌, map, IfSome};
ghost use Rattle.cad_io.specs.Writing.{IsWritten};
ghost use Rattle.cad_office.specs.Answers.{joined};

use arrayvec::ArrayVec;
use cad_io::{WriteFailed, write_whole};
use std::io::Write;

// The most bytes that are put together for one write. No answer has this many.
const TOGETHER: usize = 96;

/// Writes the pieces, or a prefix of them if a write fails or takes nothing.
pub(crate) fn write_pieces<W: Write>(writer: &mut W, pieces: &[&[u8]]) -> Result<(), WriteFailed>
    ensures { IsWritten (W.contents writer.old) (W.contents writer.new) (joined (map (λ p. p.now) pieces.now)) result }
{
    // One write, if the writer takes it whole.
    match put_together(pieces) {
        Some(line) => write_whole(writer, line.as_slice()),
        None => write_each(writer, pieces),
    }
}

/// The pieces, one after the other, if they have few bytes.
fn put_together(pieces: &[&[u8]]) -> Option<ArrayVec<u8, TOGETHER>>
    ensures { IfSome result (λ line. line.items ≡ joined (map (λ p. p.now) pieces.now)) }
{
    let mut line = ArrayVec::new();
    for piece in pieces {
        match line.try_extend_from_slice(piece) {
            Ok(()) => {}
            Err(_) => return None,
        }
    }
    Some(line)
}

fn write_each<W: Write>(writer: &mut W, pieces: &[&[u8]]) -> Result<(), WriteFailed>
    ensures { IsWritten (W.contents writer.old) (W.contents writer.new) (joined (map (λ p. p.now) pieces.now)) result }
{
    for piece in pieces {
        write_whole(writer, piece)?;
    }
    Ok(())
}
