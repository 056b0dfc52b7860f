//! Positions in a list.

ghost use Rattle.std.specs.Prelude.{◌≡◌, ◌<◌, ◌≤◌, ℕ, length, slice_index, vec_len};
ghost use Rattle.std.specs.List.Sorted.{IsStrictlyIncreasing};
ghost use Rattle.cad_positions.specs.Held.{is_left};
ghost use Rattle.cad_positions.specs.Left.{Settles};

/// The rest of an ascending list of positions.
#[derive(Debug, Drop)]
pub struct Listed {
    rows: Vec<u32>,
    at: usize,
    ghost ascending: { (i j : ℕ) → i < j → j < length rows.items → slice_index rows.items i < slice_index rows.items j },
    ghost within: { at ≤ vec_len rows },
}

impl Listed {
    /// All positions of a list that ascends.
    pub(crate) fn of(rows: Vec<u32>) -> Listed
        requires { IsStrictlyIncreasing rows.items }
        ensures rows { result.rows ≡ rows }
        ensures at { result.at ≡ 0 }
    {
        Listed { rows, at: 0 }
    }

    /// Drops the positions below `from`, and returns the front.
    pub(crate) fn settle(&mut self, from: u32) -> Option<u32>
        ensures { Settles (is_left self.old.rows.items self.old.at) (is_left self.new.rows.items self.new.at) from result }
    {
        while self.at < self.rows.len() {
            let row = self.rows[self.at];
            if row >= from {
                return Some(row);
            }
            self.at += 1;
        }
        None
    }
}
