//! Whether a new piece can change what is at the front.

ghost use Rattle.std.specs.Prelude.{◌≡◌, ◌++◌, false};
ghost use Rattle.cad_head.specs.Heads.{IsIncomplete};
ghost use Rattle.cad_head.specs.Pieces.{may_settle as may_settle_of};

use crate::limits::FRONT_LEN;

/// Whether a piece that follows the bytes held can complete a head, or show that none can come: it ends a line, or fills the front. After
/// any other piece an incomplete head is still incomplete, so the bytes need not be parsed again.
pub fn may_settle(held: &[u8], piece: &[u8]) -> bool
    ensures exact { result ≡ may_settle_of held.now piece.now }
    ensures stays { result ≡ false → IsIncomplete held.now → IsIncomplete (held.now ++ piece.now) }
{
    piece.contains(&b'\n') || FRONT_LEN.saturating_sub(held.len()) <= piece.len()
}
