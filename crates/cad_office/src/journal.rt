//! A journal as lines, a piece at a time, so that others are served between two pieces.

ghost use Rattle.std.specs.Prelude.{◌≤◌, length};

use crate::journal_text::piece_text;
use cad_versions::Command;
use std::alloc::{AllocError, Global};

/// The most commands of a piece.
const MOST: usize = 16;

/// The commands of a journal, some of which were written, and the revision that the last one made.
#[derive(Drop)]
pub struct JournalLines {
    commands: Vec<Command>,
    at: usize,
    newest: u64,
    /// No more were written than there are.
    pub ghost within: { at ≤ length commands.items },
}

impl JournalLines {
    ghost use Rattle.std.specs.Prelude.{◌≡◌, ◌↔◌, [], IfOk, OnErr, IsTrue, string_bytes};
    ghost use Rattle.cad_office.specs.JournalLines.{commands_left, WritesPiece};

    /// None of these commands was written yet.
    pub fn new(commands: Vec<Command>, newest: u64) -> JournalLines
        ensures left { commands_left result ≡ commands.items }
        ensures newest { result.newest ≡ newest }
    {
        JournalLines {
            commands,
            at: 0,
            newest,
        }
    }

    /// Whether all commands were written. If the last piece was written, so was the end.
    pub fn is_done(&self) -> bool
        ensures { IsTrue result ↔ commands_left self.now ≡ [] }
    {
        self.commands[self.at..].is_empty()
    }

    /// The lines of the next commands, at most 16. After the last command of all there is the line `end N`; N is the revision that it made.
    ///
    /// An error means out of memory, and then nothing was written.
    pub fn next_piece(&mut self, alloc: Global) -> Result<String, AllocError>
        ensures written { IfOk result (λ text. WritesPiece (string_bytes text) self.old self.new) }
        ensures refused { OnErr result (self.new ≡ self.old) }
    {
        let left = &self.commands[self.at..];
        let count = left.len().min(MOST);
        let is_last = count == left.len();
        let text = piece_text(alloc, &left[..count], is_last, self.newest)?;
        self.at += count;
        Ok(text)
    }
}
