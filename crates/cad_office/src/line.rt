//! One line, byte by byte.

ghost use Rattle.std.specs.Prelude.{◌≡◌, ◌+◌, nat_lt, if◌then◌else◌};
ghost use Rattle.cad_office.specs.Lines.{longest_line};

use std::alloc::Global;

// Longer lines are not commands.
const LONGEST: usize = 65_536;

/// How a line can be read.
#[derive(Clone, Copy, Debug, PartialEq, Eq)]
pub enum LineState {
    /// All its bytes are held.
    Buffered,
    /// It has more than 65,536 bytes.
    TooLong,
    /// Out of memory: the rest of the line is skipped. This many bytes were read of it, at most 65,536.
    OutOfMemory(usize),
}

/// A line of `count` + 1 bytes that cannot be held.
fn skipped(count: usize) -> LineState
    ensures { result ≡ (if nat_lt count longest_line then LineState.OutOfMemory (count + 1) else LineState.TooLong) }
{
    if count < LONGEST {
        LineState::OutOfMemory(count + 1)
    } else {
        LineState::TooLong
    }
}

/// The line that is being read.
#[derive(Drop)]
pub struct Line {
    bytes: Vec<u8>,
    state: LineState,
}

impl Line {
    ghost use Rattle.std.specs.Prelude.{◌≡◌, ℕ, ◌==◌, List, [], ◌∷◌, ◌++◌, length};
    ghost use Rattle.cad_office.specs.Lines.{BuffersLine};

    /// A line of which no byte was read.
    pub fn new(alloc: Global) -> Line
        ensures { BuffersLine [] result }
    {
        Line {
            bytes: Vec::new(alloc),
            state: LineState::Buffered,
        }
    }

    /// One more byte, which is not LF.
    pub fn add(&mut self, byte: u8)
        ensures { (text : List ℕ) → BuffersLine text self.old → BuffersLine (text ++ byte ∷ []) self.new }
    {
        match self.state {
            LineState::TooLong => {}
            LineState::OutOfMemory(count) => self.state = skipped(count),
            LineState::Buffered => {
                let count = self.bytes.len();
                if count == LONGEST {
                    self.state = LineState::TooLong;
                } else if self.bytes.push(byte).is_err() {
                    self.state = LineState::OutOfMemory(count + 1);
                }
            }
        }
    }

    /// Whether no byte of the line was read, held or not.
    pub fn is_empty(&self) -> bool
        ensures { (text : List ℕ) → BuffersLine text self.now → result ≡ (length text == 0) }
    {
        self.bytes.is_empty() && self.state == LineState::Buffered
    }

    /// How the line can be read so far.
    pub fn state(&self) -> LineState
        ensures { result ≡ self.now.state }
    {
        self.state
    }

    /// The bytes that are held, at most 65,536: the whole line if its state says so.
    pub fn bytes(&self) -> &[u8]
        ensures { result.now ≡ self.now.bytes.items }
    {
        &self.bytes
    }

    /// Begins the next line.
    pub fn clear(&mut self)
        ensures { BuffersLine [] self.new }
    {
        self.bytes.clear();
        self.state = LineState::Buffered;
    }
}
