//! The clients whose replies are worked on, in the order of their turns.

ghost use Rattle.std.specs.Prelude.{◌≡◌};

use arrayvec::ArrayVec;

/// How many are worked on in turn.
const MOST_IN_TURN: usize = 8;

/// The numbers of the clients whose replies are worked on, in the order of their turns. Each client has one place at most, so there is room.
#[derive(Drop)]
pub(crate) struct Line {
    pub(crate) numbers: ArrayVec<u32, 64>,
}

impl Line {
    ghost use Rattle.std.specs.Prelude.{◌<◌, ◌-◌, ◌==◌, min, true, false, [], length};
    ghost use Rattle.std.specs.List.{list_any};
    ghost use Rattle.cad_event_loop.specs.inner.Line.{first_of};
    ghost use Rattle.cad_event_loop.specs.Turns.{is_among, lined_up, most_in_turn, moved_back, settled, without};

    /// Nobody's reply is worked on.
    pub(crate) fn new() -> Line
        ensures { result.numbers.items ≡ [] }
    {
        Line {
            numbers: ArrayVec::new(),
        }
    }

    /// The first.
    pub(crate) fn first(&self) -> Option<u32>
        ensures { result ≡ first_of self.now.numbers.items }
    {
        self.numbers.first().copied()
    }

    /// How many are worked on in turn.
    pub(crate) fn in_turn(&self) -> usize
        ensures { result ≡ min (length self.now.numbers.items) most_in_turn }
    {
        self.numbers.len().min(MOST_IN_TURN)
    }

    /// How many wait until one of those is done.
    pub(crate) fn waiting(&self) -> usize
        ensures { result ≡ length self.now.numbers.items - most_in_turn }
    {
        self.numbers.len().saturating_sub(MOST_IN_TURN)
    }

    /// Whether this one is in the line.
    fn contains(&self, c: u32) -> bool
        ensures { result ≡ list_any (λ number. number == c) self.now.numbers.items }
    {
        self.numbers.iter().any(|number| *number == c)
    }

    /// All others stay.
    fn leave(&mut self, c: u32)
        ensures { self.new.numbers.items ≡ without c self.old.numbers.items }
    {
        self.numbers.retain(|number| *number != c);
    }

    /// The first goes behind the others that are worked on in turn.
    fn move_back(&mut self)
        ensures { self.new.numbers.items ≡ moved_back self.old.numbers.items }
    {
        let count = self.numbers.len();
        if count == 0 {
            return;
        }
        let first = self.numbers.remove(0);
        let at = (count - 1).min(MOST_IN_TURN - 1);
        self.numbers.insert(at, first);
    }

    /// This one keeps its place in the order: the first goes behind the others that are worked on in turn, and a new one is the last.
    fn keep(&mut self, c: u32)
        requires { is_among c self.old.numbers.items ≡ false → length self.old.numbers.items < 64 }
        ensures { self.new.numbers.items ≡ lined_up c self.old.numbers.items }
    {
        if self.first() == Some(c) {
            self.move_back();
        } else if !self.contains(c) {
            self.numbers.push(c);
        }
    }

    /// This one had turns. Its next reply is to be worked on since then, or not.
    pub(crate) fn settle(&mut self, c: u32, is_working: bool)
        requires { is_working ≡ true → is_among c self.old.numbers.items ≡ false → length self.old.numbers.items < 64 }
        ensures { self.new.numbers.items ≡ settled c is_working self.old.numbers.items }
    {
        if is_working {
            self.keep(c);
        } else {
            self.leave(c);
        }
    }
}
