//! The cells that a box touches.

ghost use Rattle.std.specs.Prelude.{◌≡◌, ◌+◌, ◌-◌, ◌*◌, ◌≤◌, ◌&&◌, nat_le};
ghost use Rattle.cad_shape.specs.Coordinates.{IsCoordinate};
ghost use Rattle.cad_grid.specs.Blocks.{cell_number, block_of, is_wide, share_a_cell};
ghost use Rattle.cad_grid.specs.Counted.{from_origin, block_at};

use crate::Cells;
use cad_shape::Bounds;

/// The column of an x or the row of a y, counted from the plane's edge, which lies 1,525,879 cells before the origin.
fn cell_of(coordinate: i64) -> u32
    requires { IsCoordinate coordinate }
    ensures cell { from_origin result ≡ cell_number coordinate }
    ensures within { result ≤ 3051757 }
{
    ((coordinate + 100_000_006_144) / 65_536) as u32
}

// Whether two ranges of numbers, each from one number to another, have a number in common.
fn overlap(first: u32, last: u32, from: u32, to: u32) -> bool
    ensures { result ≡ (nat_le first to && nat_le from last) }
{
    first <= to && from <= last
}

impl Cells {
    /// The cells that the box touches.
    pub fn of(bounds: Bounds) -> Cells
        ensures { block_at result ≡ block_of bounds }
    {
        let left = cell_of(bounds.x_min);
        let right = cell_of(bounds.x_max);
        let low = cell_of(bounds.y_min);
        let high = cell_of(bounds.y_max);
        Cells {
            left,
            low,
            right,
            high,
        }
    }

    /// How many cells there are.
    pub(crate) fn count(self) -> u64
        ensures { result ≡ (self.right + 1 - self.left) * (self.high + 1 - self.low) }
    {
        u64::from(self.right + 1 - self.left) * u64::from(self.high + 1 - self.low)
    }

    /// Whether there are more than 64 cells.
    #[tactic(auto, using(crate::proofs::CountedTests::wide_by_numbers))]
    pub fn is_wide(self) -> bool
        ensures { result ≡ is_wide (block_at self) }
    {
        self.count() > 64
    }

    /// Whether the two have a cell in common.
    #[tactic(auto, using(crate::proofs::CountedTests::shared_by_numbers))]
    pub fn share_a_cell(self, other: Cells) -> bool
        ensures { result ≡ share_a_cell (block_at self) (block_at other) }
    {
        overlap(self.left, self.right, other.left, other.right)
            && overlap(self.low, self.high, other.low, other.high)
    }
}
