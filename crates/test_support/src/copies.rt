//! A writer that knows what it should get.

ghost use Rattle.std.specs.Prelude.{◌≡◌, ◌+◌, ℕ, false, List, [], ◌∷◌, ◌++◌, IfSome, IsSome};
ghost use Rattle.test_support.specs.Copies.{HasGot, IsAtAnEnd, repeated};

use std::io::{Result, Write};

/// A writer that takes one byte a call, and counts how often it got a text, each copy directly after the one before.
#[derive(Debug, Drop)]
pub struct Copies<'a> {
    text: &'a [u8],
    at: usize,
    count: usize,
    has_others: bool,
}

impl<'a> Copies<'a> {
    /// It has taken nothing yet.
    pub fn new(text: &'a [u8]) -> Copies<'a>
        ensures text { result.text.now ≡ text.now }
        ensures got { HasGot result [] }
        ensures ended { IsAtAnEnd result }
    {
        Copies {
            text,
            at: 0,
            count: 0,
            has_others: false,
        }
    }

    /// How often it got the text, if it got that and nothing else.
    pub fn count(&self) -> Option<usize>
        ensures counted { (bytes : List ℕ) → HasGot self.now bytes → IfSome result (λ n. bytes ≡ repeated n self.now.text.now) }
        ensures known { IsAtAnEnd self.now → IsSome result }
    {
        if self.has_others || self.at > 0 {
            None
        } else {
            Some(self.count)
        }
    }

    fn take(&mut self, byte: u8)
        ensures text { self.new.text.now ≡ self.old.text.now }
        ensures got { (bytes : List ℕ) → HasGot self.old bytes → HasGot self.new (bytes ++ (byte ∷ [])) }
    {
        if self.text.get(self.at) != Some(&byte) {
            self.has_others = true;
            return;
        }
        self.at += 1;
        if self.at >= self.text.len() {
            self.at = 0;
            self.end_copy();
        }
    }

    fn end_copy(&mut self)
        ensures text { self.new.text.now ≡ self.old.text.now }
        ensures at { self.new.at ≡ self.old.at }
        ensures counted { self.new.has_others ≡ false → self.new.count ≡ self.old.count + 1 }
        ensures others { self.new.has_others ≡ false → self.old.has_others ≡ false }
    {
        match self.count.checked_add(1) {
            Some(count) => self.count = count,
            None => self.has_others = true,
        }
    }
}

impl Write for Copies<'_> {
    fn write(&mut self, buf: &[u8]) -> Result<usize> {
        match buf.first() {
            Some(byte) => {
                self.take(*byte);
                Ok(1)
            }
            None => Ok(0),
        }
    }

    fn flush(&mut self) -> Result<()> {
        Ok(())
    }
}
