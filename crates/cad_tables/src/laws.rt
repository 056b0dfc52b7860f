//! What holds of every change.

ghost use Rattle.cad_tables.specs.Laws.{KeepsLines};

use crate::cells::Stored;

/// A change removes no line and moves none; of the lines that were there it changes nothing but their closing.
pub fn a_change_keeps_lines<L: Stored>()
    ensures { KeepsLines L.line }
{}
