//! The bytes of a line.

ghost use Rattle.std.specs.Prelude.{◌≡◌, ◌⊎◌, ◌≤◌, None, ◌+◌, ◌<◌, ℕ, false, List, ◌++◌, ◌∷◌, length, drop, codes, IfSome, IsTrue};
ghost use Rattle.cad_office_socket.specs.Buffering.{IsOfOneLine, before_end};
ghost use Rattle.cad_office_socket.specs.Turns.{IsUnheld};
ghost use Rattle.cad_office.specs.Lines.{BuffersLine, longest_line};
ghost use Rattle.cad_office_socket.specs.Checks.{IsCheck};
ghost use Rattle.cad_office_socket.specs.Statuses.{IsStatusLine};
ghost use Rattle.cad_office_socket.specs.Journals.{most_revision, IsJournal, IsJournalAfter};

use cad_io::number;
use cad_office::{Line, LineState};

/// The line that asks to stop.
const STOP: &[u8] = b"stop";

/// The line that asks for the status.
const STATUS: &[u8] = b"status";

/// What a line begins with if the rest of it is to be checked.
const CHECK: &[u8] = b"check ";

/// What a line begins with if it asks for the journal after the revision that follows.
const JOURNAL: &[u8] = b"journal ";

/// The number of bytes before the first LF, if there is one.
pub(crate) fn first_end(bytes: &[u8]) -> Option<usize>
    ensures end { IfSome result (λ count. count < length bytes.now × drop count bytes.now ≡ 10 ∷ drop (count + 1) bytes.now) }
    ensures before { IsOfOneLine (before_end bytes.now result) }
{
    for at in 0..bytes.len() {
        if bytes[at] == b'\n' {
            return Some(at);
        }
    }
    None
}

/// Adds the bytes to the line, one after the other. None of them is an LF.
pub(crate) fn add_all(line: &mut Line, bytes: &[u8])
    ensures { (text : List ℕ) → BuffersLine text line.old → BuffersLine (text ++ bytes.now) line.new }
{
    for byte in bytes {
        line.add(*byte);
    }
}

/// Whether the line asks to stop. A line that could not be held asks for nothing.
pub(crate) fn asks_to_stop(line: &Line) -> bool
    ensures asked { (text : List ℕ) → BuffersLine text line.now → IsTrue result → text ≡ codes "stop" }
    ensures unasked { (text : List ℕ) → BuffersLine text line.now → result ≡ false → text ≡ codes "stop" → IsUnheld line.now.state }
{
    match line.state() {
        LineState::Buffered => line.bytes() == STOP,
        LineState::TooLong | LineState::OutOfMemory(_) => false,
    }
}

/// Whether the line asks for the status. A line that could not be held asks for nothing.
pub(crate) fn asks_for_status(line: &Line) -> bool
    ensures asked { (text : List ℕ) → BuffersLine text line.now → IsTrue result → IsStatusLine text }
    ensures unasked { (text : List ℕ) → BuffersLine text line.now → result ≡ false → IsStatusLine text → IsUnheld line.now.state }
{
    match line.state() {
        LineState::Buffered => line.bytes() == STATUS,
        LineState::TooLong | LineState::OutOfMemory(_) => false,
    }
}

/// The LINE of a line `check LINE`. A line that could not be held asks for nothing.
pub(crate) fn line_to_check(line: &Line) -> Option<&[u8]>
    ensures held { IfSome result (λ part. (text : List ℕ) → BuffersLine text line.now → length text ≤ longest_line) }
    ensures checked { IfSome result (λ part. (text : List ℕ) → BuffersLine text line.now → text ≡ codes "check " ++ part.now) }
    ensures unchecked { result ≡ None → (text : List ℕ) → BuffersLine text line.now → IsCheck text → IsUnheld line.now.state ⊎ longest_line < length text }
{
    match line.state() {
        LineState::Buffered => {
            let line = line.bytes().strip_prefix(CHECK)?;
            Some(line)
        }
        LineState::TooLong | LineState::OutOfMemory(_) => None,
    }
}

/// The N of a line `journal N`, or 10^18 if it is more. A line that could not be held asks for nothing.
pub(crate) fn journal_after(line: &Line) -> Option<u64>
    ensures bound { IfSome result (λ behind. behind ≤ most_revision) }
    ensures asked { IfSome result (λ behind. (text : List ℕ) → BuffersLine text line.now → IsJournalAfter text behind) }
    ensures unasked { result ≡ None → (text : List ℕ) → BuffersLine text line.now → IsJournal text → IsUnheld line.now.state ⊎ longest_line < length text }
{
    match line.state() {
        LineState::Buffered => {
            let digits = line.bytes().strip_prefix(JOURNAL)?;
            number(digits)
        }
        LineState::TooLong | LineState::OutOfMemory(_) => None,
    }
}
