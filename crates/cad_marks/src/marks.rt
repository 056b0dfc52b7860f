//! Marks of places.

ghost use Rattle.std.specs.Prelude.{◌≡◌, ◌≢◌, ℕ, ◌<◌, ◌↔◌, ◌/◌, ◌%◌, ◌*◌, IfOk, IsTrue, length};
ghost use Rattle.std.specs.Int.{bit_at};

use std::alloc::{AllocError, Global};

/// Which of 64 places for each word are marked, one bit for each.
#[derive(Debug, Drop)]
pub struct Marks<const WORDS: usize> {
    words: Vec<u64>,
    ghost all: { length words.items ≡ WORDS },
}

/// The word with the bit set.
fn with_bit(word: u64, bit: u32) -> u64
    requires { bit < 64 }
    ensures set { bit_at result bit ≡ 1 }
    ensures others { (i : ℕ) → i ≢ bit → bit_at result i ≡ bit_at word i }
{
    word | (1 << bit)
}

/// Whether the bit is set.
fn has_bit(word: u64, bit: u32) -> bool
    requires { bit < 64 }
    ensures { IsTrue result ↔ (bit_at word bit ≡ 1) }
{
    word & (1 << bit) != 0
}

impl<const WORDS: usize> Marks<WORDS> {
    ghost use Rattle.std.specs.Prelude.{◌≡◌, ◌≢◌, ℕ, ◌<◌, ◌*◌, ◌↔◌, IfOk, IsTrue};
    ghost use Rattle.cad_marks.specs.Marked.{IsMarked};

    /// No marks. An error means out of memory.
    pub fn none(alloc: Global) -> Result<Marks<WORDS>, AllocError>
        ensures { IfOk result (λ marks. (k : ℕ) → IsMarked marks k → ⊥) }
    {
        let words = vec![in alloc; 0; WORDS]?;
        Ok(Marks { words })
    }

    /// The same marks in memory of their own. An error means out of memory.
    pub fn copy(&self, alloc: Global) -> Result<Marks<WORDS>, AllocError>
        ensures { IfOk result (λ marks. (k : ℕ) → IsMarked self.now k ↔ IsMarked marks k) }
    {
        let words = Vec::from_slice(alloc, &self.words)?;
        Ok(Marks { words })
    }

    /// Marks the place. The others stay as they are.
    pub fn set(&mut self, place: u32)
        requires { place < 64 * WORDS }
        ensures own { (k : ℕ) → IsMarked self.old k → IsMarked self.new k }
        ensures more { IsMarked self.new place }
        ensures others { (k : ℕ) → k ≢ place → IsMarked self.new k → IsMarked self.old k }
    {
        let at = (place / 64) as usize;
        self.words[at] = with_bit(self.words[at], place % 64);
    }

    /// Whether the place is marked.
    pub fn has(&self, place: u32) -> bool
        requires { place < 64 * WORDS }
        ensures { IsTrue result ↔ IsMarked self.now place }
    {
        has_bit(self.words[(place / 64) as usize], place % 64)
    }
}
